//! Tokens as the grammar tells them apart.

ghost use Rattle.std.specs.Prelude.{◌≡◌};
ghost use Rattle.go_ast.specs.Marks.{closes, opens, same_mark};

use crate::token::{Span, TokenRange};

/// What a token is to the grammar of types and declarations (Go specification, "Types",
/// "Declarations and scope").
#[derive(Clone, Copy, Debug, PartialEq, Eq)]
pub enum Mark {
    /// An identifier.
    Ident,
    /// A string literal.
    Text,
    /// `package`.
    Package,
    /// `import`.
    Import,
    /// `const`.
    Const,
    /// `var`.
    Var,
    /// `type`.
    Type,
    /// `func`.
    Func,
    /// `struct`.
    Struct,
    /// `interface`.
    Interface,
    /// `map`.
    Map,
    /// `chan`.
    Chan,
    /// `*`.
    Star,
    /// `<-`.
    Arrow,
    /// `.`.
    Dot,
    /// `,`.
    Comma,
    /// A semicolon, written or put there by the rule of automatic insertion.
    Semi,
    /// `|`.
    Bar,
    /// `~`.
    Tilde,
    /// `...`.
    Ellipsis,
    /// `=`.
    Equal,
    /// `(`.
    OpenParen,
    /// `)`.
    CloseParen,
    /// `[`.
    OpenBracket,
    /// `]`.
    CloseBracket,
    /// `{`.
    OpenBrace,
    /// `}`.
    CloseBrace,
    /// Every other token.
    Other,
}

impl Mark {
    /// Whether it is this mark.
    #[tactic(auto, unfolding(crate::specs::Marks::same_mark))]
    pub fn is(self, other: Mark) -> bool
        ensures { result ≡ same_mark self other }
    {
        self == other
    }

    /// Whether it is an opening bracket: `(`, `[` or `{`.
    pub fn opens(self) -> bool
        ensures { result ≡ opens self }
    {
        matches!(self, Mark::OpenParen | Mark::OpenBracket | Mark::OpenBrace)
    }

    /// Whether it is a closing bracket: `)`, `]` or `}`.
    pub fn closes(self) -> bool
        ensures { result ≡ closes self }
    {
        matches!(
            self,
            Mark::CloseParen | Mark::CloseBracket | Mark::CloseBrace
        )
    }
}

/// A token of a source, with what it is to the grammar.
#[derive(Clone, Copy, Debug, PartialEq, Eq)]
pub struct Word {
    /// What it is.
    pub mark: Mark,
    /// The bytes of its text.
    pub span: Span,
    /// Its place in the list of tokens, as the range of one token.
    pub tokens: TokenRange,
}
