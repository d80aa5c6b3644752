//! The declarations of a file's chunks, in their order.

ghost use Rattle.std.specs.Prelude.{◌≡◌, ◌^◌, ◌<◌, ◌||◌, not, All, IfOk, MatchOption, length};
ghost use Rattle.go_ast.specs.declared.declaration.Decl.{Decl};
ghost use Rattle.go_ast.specs.Files as files;
ghost use Rattle.go_ast.specs.Marks.{words_of};
ghost use Rattle.go_parser.specs.ChunkFacts.{IsChunk};
ghost use Rattle.go_parser.specs.Parsing.{IsDeclared, IsInPlace, words_in};

use crate::chunk::Chunk;
use crate::declaration::decl_in;
use crate::read::Read;
use go_ast::{Decl, Mem, Seq, Token};
use std::alloc::Global;

/// What chunks are.
#[derive(Debug, Drop)]
pub enum Declared {
    /// These declarations.
    All(Seq<Decl>),
    /// This many declarations, and then a chunk that isn't one in its place.
    Bad(usize),
}

fn is_import(decl: &Decl) -> bool
    ensures { result ≡ files.is_import decl.now }
{
    matches!(decl, Decl::Import(_))
}

/// Whether a declaration other than an import stands before the next one, by whether one stands
/// before this one.
fn others_after(others: bool, decl: &Decl) -> bool
    ensures { result ≡ (others || not (files.is_import decl.now)) }
{
    others || !is_import(decl)
}

/// The declaration of a chunk, which is no import where another declaration stands before.
fn in_place(
    alloc: Global,
    source: &[u8],
    tokens: &[Token],
    others: bool,
    chunk: &Chunk,
) -> Read<Decl>
    requires few { length tokens.now < 2 ^ 32 }
    requires chunk { IsChunk source.now tokens.now chunk.now }
    ensures { IfOk result (λ o. MatchOption o
        ((decl : Decl)
        → IsInPlace others (words_of source.now tokens.now chunk.now.tokens) decl → ⊥)
        (λ decl. IsInPlace others (words_of source.now tokens.now chunk.now.tokens) decl)) }
{
    match decl_in(alloc, source, tokens, chunk)? {
        None => Ok(None),
        Some(decl) => {
            if others && is_import(&decl) {
                Ok(None)
            } else {
                Ok(Some(decl))
            }
        }
    }
}

/// The declarations of the chunks after the package clause.
pub fn declarations(
    alloc: Global,
    source: &[u8],
    tokens: &[Token],
    chunks: &[Chunk],
) -> Mem<Declared>
    requires few { length tokens.now < 2 ^ 32 }
    requires chunks { All (IsChunk source.now tokens.now) chunks.now }
    ensures { IfOk result (λ found. IsDeclared (words_in source.now tokens.now chunks.now) found) }
{
    let mut found = Seq::new(alloc);
    let mut others = false;
    let mut at = 0;
    while at < chunks.len() {
        let Some(decl) = in_place(alloc, source, tokens, others, &chunks[at])? else {
            return Ok(Declared::Bad(at));
        };
        others = others_after(others, &decl);
        found.push(decl)?;
        at += 1;
    }
    Ok(Declared::All(found))
}
