//! The kinds of tokens in an expression.

ghost use Rattle.std.specs.Prelude.{◌≡◌};
ghost use Rattle.std.specs.Str.{bytes_eq};
ghost use Rattle.const_eval.specs.Lexemes.{lexeme_of};

use crate::operator::Operator;

/// What a token is to an expression.
#[derive(Clone, Copy)]
pub enum Lexeme {
    /// `(`.
    Open,
    /// `)`.
    Close,
    /// An operator.
    Operator(Operator),
    /// Every other token.
    Operand,
}

/// Whether a text is this one.
pub fn is(text: &[u8], known: &str) -> bool
    ensures { result ≡ bytes_eq text.now known.now }
{
    text == known.as_bytes()
}

/// What the token with this text is.
#[tactic(auto, unfolding(crate::specs::Lexemes::lexeme_of))]
pub fn lexeme_of(text: &[u8]) -> Lexeme
    ensures { result ≡ lexeme_of text.now }
{
    match () {
        () if is(text, "(") => Lexeme::Open,
        () if is(text, ")") => Lexeme::Close,
        () if is(text, "+") => Lexeme::Operator(Operator::Add),
        () if is(text, "-") => Lexeme::Operator(Operator::Subtract),
        () if is(text, "|") => Lexeme::Operator(Operator::Or),
        () if is(text, "^") => Lexeme::Operator(Operator::Xor),
        () if is(text, "*") => Lexeme::Operator(Operator::Multiply),
        () if is(text, "/") => Lexeme::Operator(Operator::Divide),
        () if is(text, "%") => Lexeme::Operator(Operator::Remainder),
        () if is(text, "<<") => Lexeme::Operator(Operator::ShiftLeft),
        () if is(text, ">>") => Lexeme::Operator(Operator::ShiftRight),
        () if is(text, "&") => Lexeme::Operator(Operator::And),
        () if is(text, "&^") => Lexeme::Operator(Operator::AndNot),
        () => Lexeme::Operand,
    }
}
