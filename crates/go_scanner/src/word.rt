//! Names and keywords.

ghost use Rattle.std.specs.Prelude.{◌≡◌, [], ◌∷◌, codes, length};
ghost use Rattle.std.specs.Str.{bytes_eq, chars};
ghost use Rattle.std.specs.List.{prefix_len};
ghost use Rattle.go_chars.specs.Identifiers.{is_among, is_letter_or_digit};
ghost use Rattle.go_scanner.specs.Classes.{is_word_byte};
ghost use Rattle.go_scanner.specs.FrontWords.{word_at};
ghost use Rattle.go_scanner.specs.Shapes.{begins_word, word_shape};

use crate::class::is_word_byte;
use crate::shape::Shape;
use go_ast::TokenKind;
use go_chars::{is_digit, is_keyword, is_letter};

fn is_letter_or_digit(c: char) -> bool
    ensures { result ≡ is_letter_or_digit c }
{
    is_letter(c) || is_digit(c)
}

/// How many letters and digits of ASCII and underscores stand at the front.
#[inline(always)]
fn ascii_length(bytes: &[u8]) -> usize
    ensures { result ≡ prefix_len is_word_byte bytes.now }
{
    for (i, byte) in bytes.iter().enumerate() {
        if !is_word_byte(*byte) {
            return i;
        }
    }
    bytes.len()
}

/// How many bytes the letters and digits at the front have, where those of ASCII at the front are
/// found.
#[cold]
#[inline(never)]
fn length_past_ascii(text: &str, found: usize) -> usize
    requires { found ≡ prefix_len is_word_byte text.now }
    ensures { result ≡ length (word_at text.now) }
{
    let bytes = text.as_bytes();
    let mut end = found;
    while end < bytes.len() {
        if bytes[end].is_ascii() {
            if !is_letter_or_digit(bytes[end] as char) {
                break;
            }
            end += 1;
        } else {
            let Some(c) = text[end..].chars().next() else {
                break;
            };
            if !is_letter_or_digit(c) {
                break;
            }
            end += c.len_utf8();
        }
    }
    end
}

/// How many bytes the letters and digits at the front have.
#[inline(always)]
pub fn word_length(text: &str) -> usize
    ensures { result ≡ length (word_at text.now) }
{
    let bytes = text.as_bytes();
    let end = ascii_length(bytes);
    if end < bytes.len() && !bytes[end].is_ascii() {
        length_past_ascii(text, end)
    } else {
        end
    }
}

/// Whether the first character is a letter.
#[tactic(auto, unfolding(crate::specs::Shapes::begins_word))]
pub fn begins_word(text: &str) -> bool
    ensures { result ≡ begins_word text.now }
{
    match text.chars().next() {
        None => false,
        Some(first) => is_letter(first),
    }
}

/// Whether a word is this one.
#[inline(always)]
pub fn is(word: &[u8], known: &str) -> bool
    ensures { result ≡ bytes_eq word.now known.now }
{
    word == known.as_bytes()
}

/// Whether a keyword takes a semicolon at the end of a line.
#[inline(always)]
fn ends_statement(word: &[u8]) -> bool
    ensures { result
        ≡ is_among
        (codes "break" ∷ codes "continue" ∷ codes "fallthrough" ∷ codes "return" ∷ [])
        word.now }
{
    is(word, "break") || is(word, "continue") || is(word, "fallthrough") || is(word, "return")
}

/// The keyword or identifier that a word is.
#[tactic(auto, unfolding(crate::specs::Shapes::word_shape))]
#[inline(always)]
pub fn word_shape(word: &[u8]) -> Shape
    ensures { result ≡ word_shape word.now }
{
    if is_keyword(word) {
        Shape::Token(TokenKind::Keyword, ends_statement(word), word.len())
    } else {
        Shape::Token(TokenKind::Ident, true, word.len())
    }
}

/// The letters and digits at the front of a text (Go specification, "Letters and digits").
#[inline(always)]
pub fn front_word(text: &str) -> &str
    ensures { result.now ≡ word_at text.now }
{
    &text[..word_length(text)]
}

/// What the word at the front is.
#[inline(always)]
pub fn front_word_shape(text: &str) -> Shape
    ensures { result ≡ word_shape (word_at text.now) }
{
    word_shape(front_word(text).as_bytes())
}
