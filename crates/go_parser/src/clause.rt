//! The package clause (Go specification, "Package clause").

ghost use Rattle.std.specs.Prelude.{◌≡◌, ◌^◌, ◌<◌, [], ◌∷◌, length};
ghost use Rattle.go_ast.specs.Marks.{words_of};
ghost use Rattle.go_parser.specs.ChunkFacts.{IsChunk};
ghost use Rattle.go_parser.specs.Parsing.{read_clause};

use crate::chunk::Chunk;
use go_ast::{Mark, Span, Token, Word};
use type_parser::{text_of, word_at};

/// The name in the package clause that two words are.
fn clause_of(source: &[u8], word: &Word, name: &Word) -> Option<Span>
    ensures { result ≡ read_clause source.now (word.now ∷ name.now ∷ []) }
{
    let blank = text_of(source, name.span) == "_".as_bytes();
    if word.mark.is(Mark::Package) && name.mark.is(Mark::Ident) && !blank {
        Some(name.span)
    } else {
        None
    }
}

/// The name in the package clause that a chunk is, where it is one.
pub fn clause_in(source: &[u8], tokens: &[Token], chunk: &Chunk) -> Option<Span>
    requires few { length tokens.now < 2 ^ 32 }
    requires chunk { IsChunk source.now tokens.now chunk.now }
    ensures { result
        ≡ read_clause source.now (words_of source.now tokens.now chunk.now.tokens) }
{
    let range = chunk.tokens;
    if range.after - range.first != 2 {
        return None;
    }
    let word = word_at(source, tokens, range.first);
    let name = word_at(source, tokens, range.first + 1);
    clause_of(source, &word, &name)
}
