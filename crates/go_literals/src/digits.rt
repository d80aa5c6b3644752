//! Digits of escapes.

ghost use Rattle.std.specs.Prelude.{◌≡◌, ◌≤◌, length};
ghost use Rattle.std.specs.Char.{digit_value, is_ascii_hexdigit};
ghost use Rattle.std.specs.List.{list_all};
ghost use Rattle.go_ast.specs.Numbers.{is_octal_digit};
ghost use Rattle.go_ast.specs.Texts.{value_of};

/// The value of a digit or letter, as `digit_value` of the standard library gives it.
fn digit_value(byte: u8) -> u64
    ensures value { result ≡ digit_value byte }
    ensures small { result ≤ 36 }
{
    match (byte as char).to_digit(36) {
        Some(value) => u64::from(value),
        None => 36,
    }
}

/// The value of at most eight digits.
pub(crate) fn value_of(base: u64, digits: &[u8]) -> u64
    requires base { base ≤ 16 }
    requires few { length digits.now ≤ 8 }
    ensures { result ≡ value_of base digits.now }
{
    let mut value = 0;
    for digit in digits {
        value = value * base + digit_value(*digit);
    }
    value
}

/// Whether all of the bytes are octal digits.
pub(crate) fn are_octal(digits: &[u8]) -> bool
    ensures { result ≡ list_all is_octal_digit digits.now }
{
    digits.iter().all(|digit| matches!(digit, b'0'..=b'7'))
}

/// Whether all of the bytes are hexadecimal digits.
pub(crate) fn are_hexadecimal(digits: &[u8]) -> bool
    ensures { result ≡ list_all is_ascii_hexdigit digits.now }
{
    digits.iter().all(|digit| digit.is_ascii_hexdigit())
}
