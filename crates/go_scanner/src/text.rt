//! Runes and strings.

ghost use Rattle.std.specs.Prelude.{◌≡◌};
ghost use Rattle.go_scanner.specs.Shapes.{text_shape, rune_shape, raw_shape};

use crate::shape::Shape;
use go_ast::TokenKind;
use go_literals::{raw_length, rune_length, string_length};

/// The string whose opening quote stands before these bytes.
#[tactic(auto, unfolding(crate::specs::Shapes::text_shape))]
pub fn text_shape(bytes: &[u8]) -> Option<Shape>
    ensures { result ≡ text_shape bytes.now }
{
    let length = string_length(bytes)?;
    Some(Shape::Token(TokenKind::Text, true, length + 1))
}

/// The rune whose opening quote stands before this text.
#[tactic(auto, unfolding(crate::specs::Shapes::rune_shape))]
pub fn rune_shape(text: &str) -> Option<Shape>
    ensures { result ≡ rune_shape text.now }
{
    let bytes = text.as_bytes();
    let length = rune_length(text);
    if 0 < length && length < bytes.len() && bytes[length] == b'\'' {
        Some(Shape::Token(TokenKind::Rune, true, length + 2))
    } else {
        None
    }
}

/// The raw string whose opening mark stands before these bytes.
#[tactic(auto, unfolding(crate::specs::Shapes::raw_shape))]
pub fn raw_shape(bytes: &[u8]) -> Option<Shape>
    ensures { result ≡ raw_shape bytes.now }
{
    let length = raw_length(bytes);
    if length < bytes.len() {
        Some(Shape::Token(TokenKind::Text, true, length + 2))
    } else {
        None
    }
}
