//! What tokens are to the grammar.

ghost use Rattle.std.specs.Prelude.{◌≡◌, ◌<◌, ◌≤◌, ◌+◌, ◌^◌, ◌∷◌, [], length, IfOk};
ghost use Rattle.std.specs.Str.{bytes_eq};
ghost use Rattle.go_ast.specs.Marks as spec;

use go_ast::{Mark, Mem, Span, Token, TokenKind, TokenRange, Word};
use std::alloc::Global;

fn is(text: &[u8], known: &str) -> bool
    ensures { result ≡ bytes_eq text.now known.now }
{
    text == known.as_bytes()
}

#[tactic(auto, unfolding(go_ast::specs::Marks::keyword_marks))]
fn keyword_mark(text: &[u8]) -> Mark
    ensures { result ≡ spec.mark_among spec.keyword_marks text.now }
{
    if is(text, "chan") {
        Mark::Chan
    } else if is(text, "const") {
        Mark::Const
    } else if is(text, "func") {
        Mark::Func
    } else if is(text, "import") {
        Mark::Import
    } else if is(text, "interface") {
        Mark::Interface
    } else if is(text, "map") {
        Mark::Map
    } else if is(text, "package") {
        Mark::Package
    } else if is(text, "struct") {
        Mark::Struct
    } else if is(text, "type") {
        Mark::Type
    } else if is(text, "var") {
        Mark::Var
    } else {
        Mark::Other
    }
}

/// What an operator of one byte is.
#[tactic(auto, unfolding(go_ast::specs::Marks::operator_marks))]
fn byte_mark(byte: u8) -> Mark
    ensures { result ≡ spec.mark_among spec.operator_marks (byte ∷ []) }
{
    match byte {
        b'*' => Mark::Star,
        b'.' => Mark::Dot,
        b',' => Mark::Comma,
        b'|' => Mark::Bar,
        b'~' => Mark::Tilde,
        b'=' => Mark::Equal,
        b'(' => Mark::OpenParen,
        b')' => Mark::CloseParen,
        b'[' => Mark::OpenBracket,
        b']' => Mark::CloseBracket,
        b'{' => Mark::OpenBrace,
        b'}' => Mark::CloseBrace,
        _ => Mark::Other,
    }
}

#[tactic(auto, unfolding(go_ast::specs::Marks::operator_marks))]
fn operator_mark(text: &[u8]) -> Mark
    ensures { result ≡ spec.mark_among spec.operator_marks text.now }
{
    if let [byte] = text {
        byte_mark(*byte)
    } else if is(text, "<-") {
        Mark::Arrow
    } else if is(text, "...") {
        Mark::Ellipsis
    } else {
        Mark::Other
    }
}

#[tactic(auto, unfolding(go_ast::specs::Marks::mark_of))]
fn mark_of(kind: TokenKind, text: &[u8]) -> Mark
    ensures { result ≡ spec.mark_of kind text.now }
{
    match kind {
        TokenKind::Ident => Mark::Ident,
        TokenKind::Text => Mark::Text,
        TokenKind::Semi | TokenKind::AutoSemi => Mark::Semi,
        TokenKind::Keyword => keyword_mark(text),
        TokenKind::Operator => operator_mark(text),
        _ => Mark::Other,
    }
}

/// The bytes of a span, as far as they are in the source.
pub fn text_of(source: &[u8], span: Span) -> &[u8]
    ensures { result.now ≡ spec.text_of source.now span }
{
    let start = (span.start as usize).min(source.len());
    let length = (span.end as usize).saturating_sub(span.start as usize);
    let rest = &source[start..];
    &rest[..length.min(rest.len())]
}

/// What a token of a source is.
pub fn mark_at(source: &[u8], token: &Token) -> Mark
    ensures { result ≡ spec.mark_of token.now.kind (spec.text_of source.now token.now.span) }
{
    mark_of(token.kind, text_of(source, token.span))
}

/// A token with what it is, at a place in the list of tokens.
fn word_of(source: &[u8], place: u32, token: &Token) -> Word
    requires { place + 1 < 2 ^ 32 }
    ensures { result ≡ spec.word_of source.now place token.now }
{
    Word {
        mark: mark_at(source, token),
        span: token.span,
        tokens: TokenRange {
            first: place,
            after: place + 1,
        },
    }
}

/// The words of tokens, the first of which has this place in the list of tokens.
fn words_from(alloc: Global, source: &[u8], first: u32, tokens: &[Token]) -> Mem<Vec<Word>>
    requires { first + length tokens.now < 2 ^ 32 }
    ensures { IfOk result (λ words. words.items ≡ spec.words_from source.now first tokens.now) }
{
    let mut words = Vec::new(alloc);
    let mut place = first;
    for token in tokens {
        words.push(word_of(source, place, token))?;
        place += 1;
    }
    Ok(words)
}

/// The words of the tokens of a range.
#[tactic(auto, unfolding(go_ast::specs::Marks::words_of))]
pub fn words_of(alloc: Global, source: &[u8], tokens: &[Token], range: TokenRange) -> Mem<Vec<Word>>
    requires ordered { range.first ≤ range.after }
    requires within { range.after ≤ length tokens.now }
    ensures { IfOk result (λ words. words.items ≡ spec.words_of source.now tokens.now range) }
{
    let tokens = &tokens[range.first as usize..range.after as usize];
    words_from(alloc, source, range.first, tokens)
}

/// The token at a place in a source's list of tokens, as a word.
#[tactic(auto, unfolding(go_ast::specs::Marks::words_of))]
pub fn word_at(source: &[u8], tokens: &[Token], place: u32) -> Word
    requires within { place < length tokens.now }
    requires small { place + 1 < 2 ^ 32 }
    ensures { spec.words_of source.now tokens.now (record { first = place; after = place + 1 })
        ≡ result ∷ [] }
{
    word_of(source, place, &tokens[place as usize])
}
