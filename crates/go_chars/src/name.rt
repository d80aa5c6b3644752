//! Names and keywords.

ghost use Rattle.std.specs.Prelude.{◌≡◌};
ghost use Rattle.std.specs.Str.{bytes_eq, chars};
ghost use Rattle.std.specs.List.{list_all};
ghost use Rattle.go_chars.specs.Identifiers.{is_letter_or_digit, is_identifier, is_among, keywords};
ghost use Rattle.go_chars.specs.Identifiers.{is_name, is_exported};

use crate::category::{is_digit, is_letter, is_upper};

/// Whether a name is exported: its first character is one of the general category Lu (Go
/// specification, "Exported identifiers"). The empty text isn't.
pub fn is_exported(name: &str) -> bool
    ensures { result ≡ is_exported (chars name.now) }
{
    match name.chars().next() {
        None => false,
        Some(first) => is_upper(first),
    }
}

/// Whether a text is an identifier that is no keyword (Go specification, "Identifiers").
pub fn is_name(text: &str) -> bool
    ensures { result ≡ is_name text.now }
{
    is_identifier(text) && !is_keyword(text.as_bytes())
}

/// Whether a text is a letter, and letters and digits after it.
fn is_identifier(text: &str) -> bool
    ensures { result ≡ is_identifier (chars text.now) }
{
    match text.chars().next() {
        None => false,
        Some(first) => is_letter(first) && are_letters_or_digits(text),
    }
}

fn are_letters_or_digits(text: &str) -> bool
    ensures { result ≡ list_all is_letter_or_digit (chars text.now) }
{
    text.chars().all(|c| is_letter(c) || is_digit(c))
}

#[inline(always)]
fn is(word: &[u8], known: &str) -> bool
    ensures { result ≡ bytes_eq word.now known.now }
{
    word == known.as_bytes()
}

/// Whether a word is one of the 25 keywords (Go specification, "Keywords").
#[tactic(auto, using(crate::proofs::Words::keywords_by_length))]
#[inline(always)]
pub fn is_keyword(word: &[u8]) -> bool
    ensures { result ≡ is_among keywords word.now }
{
    match word.len() {
        2 => is(word, "go") || is(word, "if"),
        3 => is(word, "for") || is(word, "map") || is(word, "var"),
        4 => is(word, "case")
            || is(word, "chan")
            || is(word, "else")
            || is(word, "func")
            || is(word, "goto")
            || is(word, "type"),
        5 => is(word, "break") || is(word, "const") || is(word, "defer") || is(word, "range"),
        6 => is(word, "import")
            || is(word, "return")
            || is(word, "select")
            || is(word, "struct")
            || is(word, "switch"),
        7 => is(word, "default") || is(word, "package"),
        8 => is(word, "continue"),
        9 => is(word, "interface"),
        11 => is(word, "fallthrough"),
        _ => false,
    }
}
