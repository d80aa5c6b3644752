//! Numbers.

ghost use Rattle.std.specs.Prelude.{◌≡◌, ◌<◌, length};
ghost use Rattle.std.specs.List.{position_or_len};
ghost use Rattle.go_ast.specs.Numbers.{is_digit_after, is_prefix_letter};
ghost use Rattle.go_scanner.specs.Bases.{digits_of};
ghost use Rattle.go_scanner.specs.NumberBytes.{are_separated, spells_digits, spells_after_zero};
ghost use Rattle.go_scanner.specs.NumberBytes.{spells_integer, point_place, spells_mantissa};
ghost use Rattle.go_scanner.specs.NumberBytes.{without_sign, spells_exponent, exponent_place};
ghost use Rattle.go_scanner.specs.NumberBytes.{spells_decimal_float, spells_hexadecimal_float};
ghost use Rattle.go_scanner.specs.NumberBytes.{spells_float, spells_part, is_letter_i, number_kind};
ghost use Rattle.go_scanner.specs.Shapes.{number_shape};

use crate::run::{is_exponent_mark, is_hexadecimal, number_run};
use crate::shape::Shape;
use go_ast::TokenKind;
use memchr::memchr;

/// The digits of a number.
#[derive(Clone, Copy, Debug, PartialEq, Eq)]
enum Base {
    Binary,
    Octal,
    Decimal,
    Hexadecimal,
}

impl Base {
    /// Whether a byte is one of the digits.
    fn has(self, byte: u8) -> bool
        ensures { result ≡ digits_of self byte }
    {
        match self {
            Base::Binary => matches!(byte, b'0'..=b'1'),
            Base::Octal => matches!(byte, b'0'..=b'7'),
            Base::Decimal => byte.is_ascii_digit(),
            Base::Hexadecimal => byte.is_ascii_hexdigit(),
        }
    }

    /// The digits after the prefix with this letter.
    fn after(letter: u8) -> Base
        ensures { digits_of result ≡ is_digit_after letter }
    {
        match letter {
            b'b' | b'B' => Base::Binary,
            b'o' | b'O' => Base::Octal,
            _ => Base::Hexadecimal,
        }
    }
}

/// Whether the bytes are digits, each with a `_` before it or not; one may stand before the bytes.
fn are_separated(base: Base, mut after_mark: bool, bytes: &[u8]) -> bool
    ensures { result ≡ are_separated (digits_of base) after_mark bytes.now }
{
    for byte in bytes {
        if *byte == b'_' {
            if after_mark {
                return false;
            }
            after_mark = true;
        } else {
            if !base.has(*byte) {
                return false;
            }
            after_mark = false;
        }
    }
    !after_mark
}

/// Whether the bytes are one or more digits, of which the first may have a `_` before it only
/// directly after a prefix.
fn spells_digits(base: Base, prefixed: bool, bytes: &[u8]) -> bool
    ensures { result ≡ spells_digits (digits_of base) prefixed bytes.now }
{
    !bytes.is_empty() && are_separated(base, !prefixed, bytes)
}

/// Whether a byte is the letter of a prefix.
fn is_prefix_letter(byte: u8) -> bool
    ensures { result ≡ is_prefix_letter byte }
{
    matches!(byte, b'b' | b'B' | b'o' | b'O' | b'x' | b'X')
}

/// Whether the bytes may follow a zero in an integer.
fn spells_after_zero(bytes: &[u8]) -> bool
    ensures { result ≡ spells_after_zero bytes.now }
{
    match bytes {
        [] => true,
        [letter, digits @ ..] if is_prefix_letter(*letter) => {
            spells_digits(Base::after(*letter), true, digits)
        }
        digits => spells_digits(Base::Octal, true, digits),
    }
}

/// Whether the bytes are an integer literal.
fn spells_integer(bytes: &[u8]) -> bool
    ensures { result ≡ spells_integer bytes.now }
{
    match bytes {
        [] => false,
        [b'0', rest @ ..] => spells_after_zero(rest),
        [first, rest @ ..] => {
            matches!(first, b'1'..=b'9') && are_separated(Base::Decimal, false, rest)
        }
    }
}

/// The place of the first point, or the length.
fn point_place(bytes: &[u8]) -> usize
    ensures { result ≡ point_place bytes.now }
{
    match memchr(b'.', bytes) {
        None => bytes.len(),
        Some(place) => place,
    }
}

/// Whether the bytes are digits with a point before, among or after them, or without one.
fn spells_mantissa(base: Base, prefixed: bool, bytes: &[u8]) -> bool
    ensures { result ≡ spells_mantissa (digits_of base) prefixed bytes.now }
{
    let place = point_place(bytes);
    if place == bytes.len() {
        return spells_digits(base, prefixed, bytes);
    }
    let fraction = &bytes[place + 1..];
    if place == 0 {
        return spells_digits(base, false, fraction);
    }
    spells_digits(base, prefixed, &bytes[..place])
        && (fraction.is_empty() || spells_digits(base, false, fraction))
}

/// The bytes without a sign at the front.
fn without_sign(bytes: &[u8]) -> &[u8]
    ensures { result.now ≡ without_sign bytes.now }
{
    match bytes {
        [b'+' | b'-', rest @ ..] => rest,
        _ => bytes,
    }
}

/// Whether the bytes after their first, which marks an exponent, are one.
fn spells_exponent(bytes: &[u8]) -> bool
    ensures { result ≡ spells_exponent bytes.now }
{
    match bytes {
        [] => false,
        [_, rest @ ..] => spells_digits(Base::Decimal, false, without_sign(rest)),
    }
}

/// The place of the first letter that marks an exponent, or the length.
fn exponent_place(hexadecimal: bool, bytes: &[u8]) -> usize
    ensures { result ≡ exponent_place hexadecimal bytes.now }
{
    for (place, byte) in bytes.iter().enumerate() {
        if is_exponent_mark(hexadecimal, *byte) {
            return place;
        }
    }
    bytes.len()
}

/// Whether the bytes are a decimal floating-point literal.
fn spells_decimal_float(bytes: &[u8]) -> bool
    ensures { result ≡ spells_decimal_float bytes.now }
{
    let place = exponent_place(false, bytes);
    if !spells_mantissa(Base::Decimal, false, &bytes[..place]) {
        return false;
    }
    if place == bytes.len() {
        bytes.contains(&b'.')
    } else {
        spells_exponent(&bytes[place..])
    }
}

/// Whether the bytes are a hexadecimal floating-point literal without its prefix.
fn spells_hexadecimal_float(bytes: &[u8]) -> bool
    ensures { result ≡ spells_hexadecimal_float bytes.now }
{
    let place = exponent_place(true, bytes);
    let mantissa = &bytes[..place];
    spells_mantissa(Base::Hexadecimal, true, mantissa) && spells_exponent(&bytes[place..])
}

/// Whether the bytes are a floating-point literal.
fn spells_float(bytes: &[u8]) -> bool
    ensures { result ≡ spells_float bytes.now }
{
    if is_hexadecimal(bytes) {
        spells_hexadecimal_float(&bytes[2..])
    } else {
        spells_decimal_float(bytes)
    }
}

/// Whether the bytes may stand before the `i` of an imaginary.
fn spells_part(bytes: &[u8]) -> bool
    ensures { result ≡ spells_part bytes.now }
{
    spells_integer(bytes) || spells_digits(Base::Decimal, false, bytes) || spells_float(bytes)
}

/// The place of the first `i`, or the length.
fn imaginary_place(bytes: &[u8]) -> usize
    ensures { result ≡ position_or_len is_letter_i bytes.now }
{
    match memchr(b'i', bytes) {
        None => bytes.len(),
        Some(place) => place,
    }
}

/// The kind of number that the bytes are, or `None` where they are none.
#[tactic(auto, unfolding(crate::specs::NumberBytes::number_kind))]
fn number_kind(bytes: &[u8]) -> Option<TokenKind>
    ensures { result ≡ number_kind bytes.now }
{
    let place = imaginary_place(bytes);
    if place < bytes.len() {
        return if place + 1 == bytes.len() && spells_part(&bytes[..place]) {
            Some(TokenKind::Imaginary)
        } else {
            None
        };
    }
    if spells_integer(bytes) {
        Some(TokenKind::Int)
    } else if spells_float(bytes) {
        Some(TokenKind::Float)
    } else {
        None
    }
}

/// The number that the run at the front is, or `None` where it isn't one.
#[tactic(auto, using(crate::proofs::Runs::length_number_run), unfolding(crate::specs::Shapes::number_shape))]
pub fn number_shape(rest: &[u8]) -> Option<Shape>
    requires { 0 < length rest.now }
    ensures { result ≡ number_shape rest.now }
{
    let run = number_run(rest);
    let kind = number_kind(run)?;
    Some(Shape::Token(kind, true, run.len()))
}
