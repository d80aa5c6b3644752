//! What stands at the front of some bytes.

ghost use Rattle.std.specs.Prelude.{◌≡◌, ◌<◌, length, slice_index};
ghost use Rattle.go_ast.specs.Characters.{full_stop, slash};
ghost use Rattle.go_scanner.specs.Shapes.{item_shape, operator_shape};
ghost use Rattle.go_scanner.specs.Classes.{class_of};

use crate::class::{Class, class_of};
use crate::comment::{comment_length, general_shape};
use crate::mark::{byte_at, operator_shape};
use crate::number::number_shape;
use crate::run::begins_number;
use crate::shape::Shape;
use crate::text::{raw_shape, rune_shape, text_shape};
use crate::word::{begins_word, front_word_shape};
use go_ast::TokenKind;

/// The comment or operator at the front, which begins with a slash.
#[inline(always)]
fn slash_shape(bytes: &[u8]) -> Option<Shape>
    requires { slice_index bytes.now 0 ≡ slash }
    ensures { result ≡ item_shape bytes.now }
{
    let second = byte_at(bytes, 1);
    if second == b'/' {
        Some(Shape::Comment(comment_length(bytes)))
    } else if second == b'*' {
        general_shape(&bytes[2..])
    } else {
        operator_shape(bytes)
    }
}

/// The number or operator at the front, which begins with a full stop.
#[inline(always)]
fn point_shape(bytes: &[u8]) -> Option<Shape>
    requires { slice_index bytes.now 0 ≡ full_stop }
    ensures { result ≡ item_shape bytes.now }
{
    if begins_number(bytes) {
        number_shape(bytes)
    } else {
        operator_shape(bytes)
    }
}

/// The word at the front, which begins with a character past ASCII, or `None` where that is no
/// letter.
#[cold]
#[inline(never)]
fn wide_shape(text: &str) -> Option<Shape>
    requires { class_of (slice_index text.now 0) ≡ Class.Wide }
    ensures { result ≡ item_shape text.now }
{
    if begins_word(text) {
        Some(front_word_shape(text))
    } else {
        None
    }
}

/// What stands at the front of a text that isn't empty, past the start of a source, or `None` where
/// no item does.
#[inline(always)]
pub fn item_shape(text: &str) -> Option<Shape>
    requires { 0 < length text.now }
    ensures { result ≡ item_shape text.now }
{
    let bytes = text.as_bytes();
    match class_of(bytes[0]) {
        Class::LineEnd => Some(Shape::LineEnd),
        Class::Blank => Some(Shape::Blank(1)),
        Class::Letter => Some(front_word_shape(text)),
        Class::Digit => number_shape(bytes),
        Class::DoubleQuote => text_shape(&bytes[1..]),
        Class::SingleQuote => rune_shape(&text[1..]),
        Class::BackQuote => raw_shape(&bytes[1..]),
        Class::Semicolon => Some(Shape::Token(TokenKind::Semi, false, 1)),
        Class::Slash => slash_shape(bytes),
        Class::Point => point_shape(bytes),
        Class::Wide => wide_shape(text),
        Class::Closing => Some(Shape::Token(TokenKind::Operator, true, 1)),
        Class::Lone => Some(Shape::Token(TokenKind::Operator, false, 1)),
        Class::Other => operator_shape(bytes),
    }
}
