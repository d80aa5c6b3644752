//! What an item is, and how long.

ghost use Rattle.std.specs.Prelude.{◌≡◌};
ghost use Rattle.go_scanner.specs.Shapes.{length_of};

use go_ast::TokenKind;

/// What kind of item stands at a place, and its length in bytes.
#[derive(Clone, Copy, Debug, PartialEq, Eq)]
pub enum Shape {
    /// White space without a newline, or the byte order mark: this many bytes.
    Blank(usize),
    /// A newline.
    LineEnd,
    /// A line comment of this many bytes.
    Comment(usize),
    /// A general comment of this many bytes, and whether it holds a newline.
    General(usize, bool),
    /// A token of this kind and of this many bytes, and whether it takes a semicolon at the end of
    /// a
    /// line.
    Token(TokenKind, bool, usize),
}

impl Shape {
    /// How many bytes the item has.
    #[inline(always)]
    pub fn length(self) -> usize
        ensures { result ≡ length_of self }
    {
        match self {
            Shape::LineEnd => 1,
            Shape::Blank(length)
            | Shape::Comment(length)
            | Shape::General(length, _)
            | Shape::Token(_, _, length) => length,
        }
    }
}
