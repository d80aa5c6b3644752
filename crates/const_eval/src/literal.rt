//! The values of literals as numbers below 2^127.

ghost use Rattle.std.specs.Prelude.{◌≡◌, Some};
ghost use Rattle.go_literals.specs.Reading.{read_integer, read_rune};
ghost use Rattle.const_eval.specs.Reading.{as_number, read_literal};
ghost use Rattle.const_eval.specs.Expressions.{begins_literal};

use go_literals::{integer_value, rune_value};

/// A number that a number below 2^127 is, or `None`.
fn as_number(value: u128) -> Option<i128>
    ensures { result ≡ as_number (Some value) }
{
    if value < 1 << 127 {
        Some(value as i128)
    } else {
        None
    }
}

/// Whether a text begins as a number or a rune does.
pub fn begins_literal(text: &[u8]) -> bool
    ensures { result ≡ begins_literal text.now }
{
    match text.first() {
        Some(first) => first.is_ascii_digit() || *first == b'\'',
        None => false,
    }
}

/// The value of an integer literal, or `None` where the text isn't one or its value is 2^127 or
/// more.
#[tactic(auto, using(crate::proofs::Numbers::same_number))]
fn integer_number(text: &[u8]) -> Option<i128>
    ensures { result ≡ as_number (read_integer text.now) }
{
    match integer_value(text) {
        Some(value) => as_number(value),
        None => None,
    }
}

/// The code of a rune literal, or `None` where the text isn't one.
fn rune_number(text: &[u8]) -> Option<i128>
    ensures { result ≡ as_number (read_rune text.now) }
{
    match rune_value(text) {
        Some(code) => as_number(u128::from(code)),
        None => None,
    }
}

/// The value of an integer or rune literal, or `None` where the text isn't one or its value is
/// 2^127 or more.
pub fn literal_value(text: &[u8]) -> Option<i128>
    ensures { result ≡ read_literal text.now }
{
    match text.first() {
        Some(b'\'') => rune_number(text),
        _ => integer_number(text),
    }
}
