//! Operators and punctuation.

ghost use Rattle.std.specs.Prelude.{◌≡◌, ◌<◌, [], ◌∷◌, length, codes, slice_index};
ghost use Rattle.go_scanner.specs.Marks.{stands_alone, takes_equals, takes_itself, operator_length};
ghost use Rattle.go_chars.specs.Identifiers.{is_among};
ghost use Rattle.go_scanner.specs.Shapes.{mark_shape, operator_shape};

use crate::shape::Shape;
use crate::word::is;
use go_ast::TokenKind;

/// The byte at a place, or 0 past the end.
#[inline(always)]
pub fn byte_at(bytes: &[u8], place: usize) -> u8
    ensures { result ≡ slice_index bytes.now place }
{
    if place < bytes.len() { bytes[place] } else { 0 }
}

/// Whether a mark begins no longer operator.
#[inline(always)]
fn stands_alone(mark: u8) -> bool
    ensures { result ≡ stands_alone mark }
{
    matches!(mark, b'(' | b')' | b'[' | b']' | b'{' | b'}' | b',' | b'~')
}

/// Whether `=` alone makes a mark longer.
#[inline(always)]
fn takes_equals(mark: u8) -> bool
    ensures { result ≡ takes_equals mark }
{
    matches!(mark, b'*' | b'/' | b'%' | b'^' | b'=' | b'!' | b':')
}

/// Whether `=` and the mark itself make a mark longer.
#[inline(always)]
fn takes_itself(mark: u8) -> bool
    ensures { result ≡ takes_itself mark }
{
    matches!(mark, b'+' | b'-' | b'|')
}

/// How many bytes the longest operator has that the three bytes begin with, or 0 where there is
/// none.
#[inline(always)]
fn operator_length(first: u8, second: u8, third: u8) -> usize
    ensures { result ≡ operator_length first second third }
{
    if stands_alone(first) {
        return 1;
    }
    let equals = second == b'=';
    if takes_equals(first) {
        return if equals { 2 } else { 1 };
    }
    if takes_itself(first) {
        return if second == first || equals { 2 } else { 1 };
    }
    match first {
        b'.' if second == b'.' && third == b'.' => 3,
        b'.' => 1,
        b'<' | b'>' if second == first => if third == b'=' { 3 } else { 2 },
        b'<' if second == b'-' => 2,
        b'&' if second == b'^' => if third == b'=' { 3 } else { 2 },
        b'&' if second == b'&' => 2,
        b'<' | b'>' | b'&' => if equals { 2 } else { 1 },
        _ => 0,
    }
}

/// Whether an operator takes a semicolon at the end of a line.
#[inline(always)]
fn ends_statement(mark: &[u8]) -> bool
    ensures { result
        ≡ is_among (codes "++" ∷ codes "--" ∷ codes ")" ∷ codes "]" ∷ codes "}" ∷ []) mark.now }
{
    is(mark, "++") || is(mark, "--") || is(mark, ")") || is(mark, "]") || is(mark, "}")
}

/// The operator that the bytes are.
#[inline(always)]
fn mark_shape(mark: &[u8]) -> Shape
    ensures { result ≡ mark_shape mark.now }
{
    Shape::Token(TokenKind::Operator, ends_statement(mark), mark.len())
}

/// The longest operator at the front, or `None` where there isn't one.
#[tactic(auto, using(crate::proofs::Marks::operator_shape_of_length, crate::proofs::Marks::operator_length_within))]
#[inline(always)]
pub fn operator_shape(rest: &[u8]) -> Option<Shape>
    ensures { result ≡ operator_shape rest.now }
{
    let length = operator_length(byte_at(rest, 0), byte_at(rest, 1), byte_at(rest, 2));
    if length == 0 {
        None
    } else {
        Some(mark_shape(&rest[..length]))
    }
}
