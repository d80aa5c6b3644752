//! The tokens and comments of a source, by the places of their bytes.

use plain_data::Seq;

/// The most bytes that a source may have.
pub const MAX_SOURCE_BYTES: usize = 4_194_304;

/// The bytes from `start` to before `end`, both byte offsets into one source.
#[derive(Clone, Copy, Debug, PartialEq, Eq)]
pub struct Span {
    /// The offset of the first byte.
    pub start: u32,
    /// The offset after the last byte.
    pub end: u32,
}

/// The tokens from the place `first` to before the place `after` in one source's list of tokens.
#[derive(Clone, Copy, Debug, PartialEq, Eq)]
pub struct TokenRange {
    /// The place of the first token.
    pub first: u32,
    /// The place after the last token.
    pub after: u32,
}

/// What a token is (Go specification, "Tokens").
#[derive(Clone, Copy, Debug, PartialEq, Eq)]
pub enum TokenKind {
    /// An identifier.
    Ident,
    /// One of the 25 keywords.
    Keyword,
    /// An integer literal.
    Int,
    /// A floating-point literal.
    Float,
    /// An imaginary literal.
    Imaginary,
    /// A rune literal.
    Rune,
    /// A string literal.
    Text,
    /// An operator or punctuation other than the semicolon.
    Operator,
    /// A semicolon that is written in the source.
    Semi,
    /// A semicolon that the rule of automatic insertion puts there: its span is empty.
    AutoSemi,
}

/// A token: what it is, and where its text stands.
#[derive(Clone, Copy, Debug, PartialEq, Eq)]
pub struct Token {
    /// What the token is.
    pub kind: TokenKind,
    /// The bytes of its text.
    pub span: Span,
}

/// A comment, with its opening mark.
#[derive(Clone, Copy, Debug, PartialEq, Eq)]
pub struct Comment {
    /// The bytes of the comment.
    pub span: Span,
    /// Whether it is a general comment, from `/*` to `*/`.
    pub general: bool,
}

/// What a scan found in a source.
#[derive(Debug, Drop)]
pub struct Scanned {
    /// The tokens, in their order.
    pub tokens: Seq<Token>,
    /// The comments, in their order.
    pub comments: Seq<Comment>,
    /// The offsets where lines begin: 0, and the offset after each newline.
    pub lines: Seq<u32>,
}
