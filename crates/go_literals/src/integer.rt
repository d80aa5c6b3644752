//! The values of integers.

ghost use Rattle.std.specs.Prelude.{ℕ, ◌≡◌, ◌≤◌, ◌<◌, ◌+◌, ◌*◌, ◌^◌, false, IfNone, IfSome};
ghost use Rattle.std.specs.Prelude.{SomeIff};
ghost use Rattle.go_ast.specs.Numbers.{is_prefix_letter};
ghost use Rattle.go_literals.specs.Literals.{base_of, IsIntegerLiteral};
ghost use Rattle.go_literals.specs.Options.{◌|>◌};
ghost use Rattle.go_literals.specs.Reading.{read_digits, read_based, read_after_zero, read_integer};
ghost use Rattle.go_literals.specs.Reading.{in_range};

/// The value with one more digit, where it is below 2^128.
fn next_value(value: u128, base: u32, digit: u32) -> Option<u128>
    ensures { SomeIff result (value * base + digit < 2 ^ 128) (value * base + digit) }
{
    let product = value.checked_mul(u128::from(base))?;
    product.checked_add(u128::from(digit))
}

/// The value of digits of a base, where a `_` may stand before each.
#[tactic(auto, using(crate::proofs::DigitRuns::too_large))]
fn digits_value(base: u32, digits: &[u8]) -> Option<u128>
    requires low { 2 ≤ base }
    requires high { base ≤ 16 }
    ensures { result ≡ (read_digits base false 0 digits.now |> in_range) }
{
    let mut value: u128 = 0;
    let mut marked = false;
    for byte in digits {
        if *byte == b'_' {
            if marked {
                return None;
            }
            marked = true;
        } else {
            let digit = (*byte as char).to_digit(base)?;
            // More digits give no less, so that a value that is too large stays so.
            match next_value(value, base, digit) {
                Some(next) => value = next,
                None => return None,
            }
            marked = false;
        }
    }
    if marked { None } else { Some(value) }
}

/// Whether a letter may follow the `0` that begins a literal.
fn is_prefix_letter(letter: u8) -> bool
    ensures { result ≡ is_prefix_letter letter }
{
    matches!(letter, b'b' | b'B' | b'o' | b'O' | b'x' | b'X')
}

/// The base that the letter of a prefix stands for.
fn base_of(letter: u8) -> u32
    ensures value { result ≡ base_of letter }
    ensures low { 2 ≤ result }
    ensures high { result ≤ 16 }
{
    match letter {
        b'b' | b'B' => 2,
        b'o' | b'O' => 8,
        _ => 16,
    }
}

/// The value of the literal that has these digits after a `0` and a letter.
fn based_value(letter: u8, digits: &[u8]) -> Option<u128>
    ensures { result ≡ (read_based letter digits.now |> in_range) }
{
    if digits.is_empty() {
        None
    } else {
        digits_value(base_of(letter), digits)
    }
}

/// The value of the literal that has these bytes after a `0`.
fn value_after_zero(bytes: &[u8]) -> Option<u128>
    ensures { result ≡ (read_after_zero bytes.now |> in_range) }
{
    match bytes.split_first() {
        None => Some(0),
        Some((letter, digits)) if is_prefix_letter(*letter) => based_value(*letter, digits),
        Some(_) => digits_value(8, bytes),
    }
}

/// The value of these bytes by their first one.
fn read_integer(text: &[u8]) -> Option<u128>
    ensures { result ≡ (read_integer text.now |> in_range) }
{
    match text.split_first() {
        Some((b'0', bytes)) => value_after_zero(bytes),
        Some((b'1'..=b'9', _)) => digits_value(10, text),
        _ => None,
    }
}

/// The value of an integer literal, or `None` where the text isn't one or its value is 2^128 or
/// more.
#[tactic(auto, using(crate::proofs::Found::integer_found, crate::proofs::Found::integer_none))]
pub fn integer_value(text: &[u8]) -> Option<u128>
    ensures value { result ≡ (read_integer text.now |> in_range) }
    ensures found { IfSome result (IsIntegerLiteral text.now) }
    ensures none { IfNone result ((n : ℕ) → IsIntegerLiteral text.now n → 2 ^ 128 ≤ n) }
{
    read_integer(text)
}
