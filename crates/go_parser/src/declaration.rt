//! The declaration that a chunk spells (Go specification, "Declarations and scope").

ghost use Rattle.std.specs.Prelude.{◌≡◌, ◌^◌, ◌<◌, IfOk, MatchOption, length};
ghost use Rattle.go_ast.specs.declared.declaration.Decl.{Decl};
ghost use Rattle.go_ast.specs.Declarations.{IsDecl};
ghost use Rattle.go_ast.specs.Marks.{words_of};
ghost use Rattle.go_parser.specs.ChunkFacts.{IsChunk};
ghost use Rattle.go_parser.specs.Reading as spec;

use crate::body::{front_of, function_body};
use crate::chunk::Chunk;
use crate::function::Extent;
use crate::group::group;
use crate::import::Imports;
use crate::read::Read;
use crate::type_spec::Types;
use crate::value::Values;
use go_ast::{Decl, Mark, Token};
use std::alloc::Global;
use type_parser::{Words, matched_words};

/// The declaration of the words, which come before its body, by their first one.
#[tactic(auto, unfolding(crate::specs::Reading::read_words))]
pub fn declared(alloc: Global, extent: Extent, words: &Words<'_>) -> Read<Decl>
    ensures { IfOk result (λ o. o ≡ spec.read_words extent.tokens extent.body words.now) }
{
    let Some((first, rest)) = words.split_first() else {
        return Ok(None);
    };
    let tokens = extent.tokens;
    let found = match first.mark {
        Mark::Import => group(alloc, &Imports, tokens, &rest)?.map(Decl::Import),
        Mark::Const => group(alloc, &Values { constant: true }, tokens, &rest)?.map(Decl::Const),
        Mark::Var => group(alloc, &Values { constant: false }, tokens, &rest)?.map(Decl::Var),
        Mark::Type => group(alloc, &Types, tokens, &rest)?.map(Decl::Types),
        Mark::Func => extent.read(alloc, &rest)?.map(Decl::Func),
        _ => None,
    };
    Ok(found)
}

/// The declaration that a chunk spells. Words are made of the tokens before the body of a function.
pub fn decl_in(alloc: Global, source: &[u8], tokens: &[Token], chunk: &Chunk) -> Read<Decl>
    requires few { length tokens.now < 2 ^ 32 }
    requires chunk { IsChunk source.now tokens.now chunk.now }
    ensures { IfOk result (λ o. MatchOption o
        ((decl : Decl) → IsDecl (words_of source.now tokens.now chunk.now.tokens) decl → ⊥)
        (λ decl. IsDecl (words_of source.now tokens.now chunk.now.tokens) decl)) }
{
    let body = function_body(source, tokens, chunk);
    let words = matched_words(alloc, source, tokens, front_of(chunk.tokens, body))?;
    let extent = Extent {
        tokens: chunk.tokens,
        body,
    };
    declared(alloc, extent, &words.all())
}
