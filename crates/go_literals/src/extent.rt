//! How many bytes runes and strings have.

ghost use Rattle.std.specs.Prelude.{◌≡◌, ◌≤◌, IfSome, length};
ghost use Rattle.std.specs.Str.{chars};
ghost use Rattle.go_ast.specs.Characters.{double_quote};
ghost use Rattle.go_literals.specs.Extents.{string_length, character_length, rune_length};
ghost use Rattle.go_literals.specs.Extents.{raw_length};

use crate::escape::escape_length;
use memchr::{memchr, memchr3};

/// How many bytes there are up to the closing quote and with it, or `None` where the string whose
/// opening quote stands before these bytes doesn't end on the line, or holds an ill-formed escape.
pub fn string_length(bytes: &[u8]) -> Option<usize>
    ensures value { result ≡ string_length double_quote 0 bytes.now }
    ensures within { IfSome result (λ n. n ≤ length bytes.now) }
{
    let mut at = 0;
    while let Some(plain) = memchr3(b'"', b'\\', b'\n', &bytes[at..]) {
        let place = at + plain;
        let mark = bytes[place];
        if mark == b'"' {
            return Some(place + 1);
        }
        if mark != b'\\' {
            return None;
        }
        let length = escape_length(b'"', &bytes[place + 1..]);
        if length == 0 {
            return None;
        }
        at = place + 1 + length;
    }
    None
}

/// How many bytes the first character has, or 0 where it doesn't stand for itself in a rune.
fn character_length(text: &str) -> usize
    ensures { result ≡ character_length (chars text.now) }
{
    match text.chars().next() {
        None | Some('\'' | '\\' | '\n') => 0,
        Some(c) => c.len_utf8(),
    }
}

/// How many bytes the character or escape of a rune has, or 0 where the text begins none.
#[tactic(auto, unfolding(crate::specs::Extents::rune_length))]
pub fn rune_length(text: &str) -> usize
    ensures { result ≡ rune_length text.now }
{
    let bytes = text.as_bytes();
    if bytes.is_empty() || bytes[0] != b'\\' {
        return character_length(text);
    }
    match escape_length(b'\'', &bytes[1..]) {
        0 => 0,
        length => length + 1,
    }
}

/// How many bytes stand before the next back quote, or their number where there isn't one.
pub fn raw_length(bytes: &[u8]) -> usize
    ensures { result ≡ raw_length bytes.now }
{
    match memchr(b'`', bytes) {
        None => bytes.len(),
        Some(length) => length,
    }
}
