//! The values of runes.

ghost use Rattle.std.specs.Prelude.{ℕ, ◌≡◌, IfNone, IfSome, length};
ghost use Rattle.std.specs.Str.{chars};
ghost use Rattle.go_literals.specs.Literals.{IsRuneLiteral};
ghost use Rattle.go_literals.specs.Options.{◌|>◌};
ghost use Rattle.go_literals.specs.Reading.{only_character, read_character, read_element};
ghost use Rattle.go_literals.specs.Reading.{before_quote, read_rune};

use crate::escape::escape_value;

/// The code of the one character of a text, which stands for itself.
fn only_character(text: &str) -> Option<u32>
    ensures { result ≡ only_character (length text.now) (chars text.now) }
{
    match text.chars().next() {
        None | Some('\'' | '\\' | '\n') => None,
        Some(character) => {
            if character.len_utf8() == text.len() {
                Some(u32::from(character))
            } else {
                None
            }
        }
    }
}

/// The code of the one character that the bytes are, which stands for itself.
fn character_value(bytes: &[u8]) -> Option<u32>
    ensures { result ≡ read_character bytes.now }
{
    match str::from_utf8(bytes) {
        Ok(text) => only_character(text),
        Err(_) => None,
    }
}

/// The code of the character or escape between the quotes of a rune.
fn element_value(bytes: &[u8]) -> Option<u32>
    ensures { result ≡ read_element bytes.now }
{
    match bytes.split_first() {
        None => None,
        Some((b'\\', rest)) => escape_value(b'\'', rest),
        Some(_) => character_value(bytes),
    }
}

/// The code of the rune that has these bytes after its opening quote.
#[tactic(auto, using(crate::proofs::RuneBytes::before_last))]
fn quoted_value(bytes: &[u8]) -> Option<u32>
    ensures { result ≡ (before_quote bytes.now |> read_element) }
{
    let (last, inner) = bytes.split_last()?;
    if *last == b'\'' {
        element_value(inner)
    } else {
        None
    }
}

/// The code of these bytes by their first one.
fn read_rune(text: &[u8]) -> Option<u32>
    ensures { result ≡ read_rune text.now }
{
    match text.split_first() {
        Some((b'\'', rest)) => quoted_value(rest),
        _ => None,
    }
}

/// The code of a rune literal, or `None` where the text isn't one.
#[tactic(auto, using(crate::proofs::Found::rune_found, crate::proofs::Found::rune_none))]
pub fn rune_value(text: &[u8]) -> Option<u32>
    ensures value { result ≡ read_rune text.now }
    ensures found { IfSome result (IsRuneLiteral text.now) }
    ensures none { IfNone result ((n : ℕ) → IsRuneLiteral text.now n → ⊥) }
{
    read_rune(text)
}
