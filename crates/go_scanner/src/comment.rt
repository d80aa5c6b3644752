//! Comments.

ghost use Rattle.std.specs.Prelude.{◌≡◌, ◌==◌, length, not};
ghost use Rattle.std.specs.List.{prefix_len};
ghost use Rattle.go_ast.specs.Characters.{newline};
ghost use Rattle.go_ast.specs.Reading.{has_newline};
ghost use Rattle.go_scanner.specs.Shapes.{comment_length, general_shape};
ghost use Rattle.go_scanner.specs.TextBytes.{comment_end};

use crate::shape::Shape;
use memchr::{memchr, memmem};

/// How many bytes stand before the newline, or before the end.
fn line_length(rest: &[u8]) -> usize
    ensures { result ≡ prefix_len (λ b. not (b == newline)) rest.now }
{
    match memchr(b'\n', rest) {
        None => rest.len(),
        Some(length) => length,
    }
}

/// How many bytes the line comment at the front has: it goes to the newline, but for a carriage
/// return directly before it, or to the end.
pub fn comment_length(rest: &[u8]) -> usize
    ensures { result ≡ comment_length rest.now }
{
    let line = line_length(rest);
    if 0 < line && line < rest.len() && rest[line - 1] == b'\r' {
        line - 1
    } else {
        line
    }
}

/// How many bytes stand before the first `*/`.
fn comment_end(rest: &[u8]) -> Option<usize>
    ensures { result ≡ comment_end rest.now }
{
    memmem::find(rest, b"*/")
}

fn has_newline(bytes: &[u8]) -> bool
    ensures { result ≡ has_newline bytes.now }
{
    memchr(b'\n', bytes).is_some()
}

/// The general comment whose opening mark stands before these bytes, or `None` where it has no end.
#[tactic(auto, using(crate::proofs::Closings::comment_end_within), unfolding(crate::specs::Shapes::general_shape))]
pub fn general_shape(rest: &[u8]) -> Option<Shape>
    ensures { result ≡ general_shape rest.now }
{
    let length = comment_end(rest)?;
    Some(Shape::General(length + 4, has_newline(&rest[..length])))
}
