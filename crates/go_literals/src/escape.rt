//! Escapes: how long they are, and what they denote.

ghost use Rattle.std.specs.Prelude.{◌≡◌, ◌≤◌, ◌+◌, take};
ghost use Rattle.go_ast.specs.Texts.{is_escape_mark, is_octal_escape, is_scalar};
ghost use Rattle.go_ast.specs.Texts.{is_coded, is_hexadecimal_escape};
ghost use Rattle.go_literals.specs.Extents.{coded_length, escape_length};
ghost use Rattle.go_literals.specs.Literals.{escape_value};
ghost use Rattle.go_literals.specs.Reading.{read_escape};

use crate::digits::{are_hexadecimal, are_octal, value_of};

/// Whether a byte may stand after a `\` in a literal with this quote, as an escape by itself.
fn is_escape_mark(quote: u8, byte: u8) -> bool
    ensures { result ≡ is_escape_mark quote byte }
{
    byte == quote || matches!(byte, b'a' | b'b' | b'f' | b'n' | b'r' | b't' | b'v' | b'\\')
}

/// Whether a number is a Unicode scalar value.
fn is_scalar(code: u64) -> bool
    ensures { result ≡ is_scalar code }
{
    code < 0xD800 || (0xE000 <= code && code < 0x11_0000)
}

/// Whether the digits are three octal digits up to 377.
fn is_octal_escape(digits: &[u8]) -> bool
    ensures { result ≡ is_octal_escape digits.now }
{
    digits.len() == 3 && are_octal(digits) && value_of(8, digits) < 256
}

/// Whether this many digits may follow this letter, and name a scalar value where they have to.
fn is_coded(letter: u8, digits: &[u8]) -> bool
    ensures { result ≡ is_coded letter digits.now }
{
    match letter {
        b'x' => digits.len() == 2,
        b'u' => digits.len() == 4 && is_scalar(value_of(16, digits)),
        b'U' => digits.len() == 8 && is_scalar(value_of(16, digits)),
        _ => false,
    }
}

/// Whether the digits are those of an escape with this letter.
fn is_hexadecimal_escape(letter: u8, digits: &[u8]) -> bool
    ensures { result ≡ is_hexadecimal_escape letter digits.now }
{
    are_hexadecimal(digits) && is_coded(letter, digits)
}

/// The first bytes, at most this many.
fn front(bytes: &[u8], length: usize) -> &[u8]
    ensures { result.now ≡ take length bytes.now }
{
    if length < bytes.len() {
        &bytes[..length]
    } else {
        bytes
    }
}

/// How many bytes an escape with this letter and this many digits has after its `\`, whose letter
/// stands before these bytes, or 0 where there isn't one.
fn coded_length(letter: u8, digits: usize, bytes: &[u8]) -> usize
    requires { digits ≤ 8 }
    ensures value { result ≡ coded_length letter digits bytes.now }
    ensures short { result ≤ digits + 1 }
{
    if is_hexadecimal_escape(letter, front(bytes, digits)) {
        digits + 1
    } else {
        0
    }
}

/// How many bytes the escape has whose `\` stands before these bytes, or 0 where there isn't one.
pub(crate) fn escape_length(quote: u8, bytes: &[u8]) -> usize
    ensures value { result ≡ escape_length quote bytes.now }
    ensures short { result ≤ 9 }
{
    let Some((mark, rest)) = bytes.split_first() else {
        return 0;
    };
    if is_escape_mark(quote, *mark) {
        return 1;
    }
    match mark {
        b'x' => coded_length(b'x', 2, rest),
        b'u' => coded_length(b'u', 4, rest),
        b'U' => coded_length(b'U', 8, rest),
        _ if is_octal_escape(front(bytes, 3)) => 3,
        _ => 0,
    }
}

/// The code that a `\` and a mark stand for.
fn mark_value(mark: u8) -> u8
    ensures { result ≡ escape_value mark }
{
    match mark {
        b'a' => 7,
        b'b' => 8,
        b'f' => 12,
        b'n' => 10,
        b'r' => 13,
        b't' => 9,
        b'v' => 11,
        _ => mark,
    }
}

/// The code that the bytes after a `\` denote before this quote, or `None` where they are not an
/// escape.
#[tactic(auto, using(crate::proofs::Codes::coded_small))]
pub(crate) fn escape_value(quote: u8, bytes: &[u8]) -> Option<u32>
    ensures { result ≡ read_escape quote bytes.now }
{
    let (first, digits) = bytes.split_first()?;
    if digits.is_empty() {
        return if is_escape_mark(quote, *first) {
            Some(u32::from(mark_value(*first)))
        } else {
            None
        };
    }
    if is_octal_escape(bytes) {
        return Some(value_of(8, bytes) as u32);
    }
    if is_hexadecimal_escape(*first, digits) {
        return Some(value_of(16, digits) as u32);
    }
    None
}
