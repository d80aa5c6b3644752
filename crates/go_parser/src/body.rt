//! The body that ends a chunk (Go specification, "Function declarations").

ghost use Rattle.std.specs.Prelude.{◌≡◌, ◌^◌, ◌<◌, ◌≤◌, IfSome, Some, length};
ghost use Rattle.go_ast.specs.Declarations as grammar;
ghost use Rattle.go_ast.specs.Marks.{words_of};
ghost use Rattle.go_parser.specs.Bodies.{AreReadFor, before_body};
ghost use Rattle.go_parser.specs.ChunkFacts.{IsChunk, IsOpened};

use crate::chunk::Chunk;
use go_ast::{Mark, Token, TokenRange, Word};
use type_parser::word_at;

/// Whether a word makes a type of the braces after it.
fn takes_braces(word: &Word) -> bool
    ensures { result ≡ grammar.takes_braces word.now }
{
    word.mark.is(Mark::Struct) || word.mark.is(Mark::Interface)
}

/// The body of a range of tokens whose last one closes the bracket at a place after the first.
fn body_from(source: &[u8], tokens: &[Token], range: TokenRange, place: u32) -> Option<TokenRange>
    requires few { length tokens.now < 2 ^ 32 }
    requires later { range.first < place }
    requires before { place < range.after }
    requires within { range.after ≤ length tokens.now }
    requires opened { IsOpened source.now tokens.now range (Some place) }
    ensures body { grammar.Precedes (words_of source.now tokens.now range)
        (words_of source.now tokens.now (before_body range result)) result }
    ensures first { IfSome result (λ body. body.first ≡ place) }
{
    let before = word_at(source, tokens, place - 1);
    let opening = word_at(source, tokens, place);
    if !opening.mark.is(Mark::OpenBrace) || takes_braces(&before) {
        return None;
    }
    Some(TokenRange {
        first: place,
        after: range.after,
    })
}

/// The tokens of the body that ends a chunk, where one does.
pub fn body_of(source: &[u8], tokens: &[Token], chunk: &Chunk) -> Option<TokenRange>
    requires few { length tokens.now < 2 ^ 32 }
    requires chunk { IsChunk source.now tokens.now chunk.now }
    ensures body { grammar.Precedes (words_of source.now tokens.now chunk.now.tokens)
        (words_of source.now tokens.now (before_body chunk.now.tokens result)) result }
    ensures within { IfSome result (λ body. (chunk.now.tokens.first ≤ body.first)
        × (body.first < chunk.now.tokens.after)) }
{
    match chunk.opened {
        Some(place) if chunk.tokens.first < place => {
            body_from(source, tokens, chunk.tokens, place)
        }
        _ => None,
    }
}

/// The tokens of the body of the function that a chunk declares, where it has one.
pub fn function_body(source: &[u8], tokens: &[Token], chunk: &Chunk) -> Option<TokenRange>
    requires few { length tokens.now < 2 ^ 32 }
    requires chunk { IsChunk source.now tokens.now chunk.now }
    ensures read { AreReadFor (words_of source.now tokens.now chunk.now.tokens)
        (words_of source.now tokens.now (before_body chunk.now.tokens result)) result }
    ensures within { IfSome result (λ body. (chunk.now.tokens.first ≤ body.first)
        × (body.first < chunk.now.tokens.after)) }
{
    let first = word_at(source, tokens, chunk.tokens.first);
    if first.mark.is(Mark::Func) {
        body_of(source, tokens, chunk)
    } else {
        None
    }
}

/// The tokens of a range before its body, where it has one.
pub fn front_of(range: TokenRange, body: Option<TokenRange>) -> TokenRange
    requires ordered { range.first ≤ range.after }
    requires within { IfSome body (λ body. (range.first ≤ body.first)
        × (body.first < range.after)) }
    ensures value { result ≡ before_body range body }
    ensures ordered { result.first ≤ result.after }
    ensures within { result.after ≤ range.after }
{
    match body {
        None => range,
        Some(body) => TokenRange {
            first: range.first,
            after: body.first,
        },
    }
}
