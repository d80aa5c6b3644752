//! The public call.

ghost use Rattle.std.specs.Prelude.{◌≡◌, ◌^◌, ◌<◌, ◌≤◌, All, IfErr, IfOk, MatchResult, length};
ghost use Rattle.go_ast.specs.declared.declaration.File.{File};
ghost use Rattle.go_ast.specs.declared.fault.Fault.{Fault};
ghost use Rattle.go_ast.specs.declared.fault.Refused.TheVariants as refusals;
ghost use Rattle.go_ast.specs.Files.{FileFault, SpellsFile};
ghost use Rattle.go_ast.specs.Position.{line_of};
ghost use Rattle.go_ast.specs.Reading.{Reads};
ghost use Rattle.go_ast.specs.Tokens.{IsWithin};
ghost use Rattle.go_parser.specs.Results.{RefusedFor};
ghost use Rattle.go_parser.specs.ChunkFacts.{AreChunks, IsChunk};
ghost use Rattle.go_parser.specs.Parsing.{IsBadAt, IsParsed, words_in};
ghost use Rattle.go_scanner.specs.Results.{IsRefusedAs};

use crate::chunk::{Chunk, Cut};
use crate::chunks::chunks_of;
use crate::clause::clause_in;
use crate::declarations::{Declared, declarations};
use go_ast::{Fault, File, MAX_SOURCE_BYTES, Mem, Refused, Scanned, Token};
use std::alloc::Global;

/// What the chunks of a file are.
#[derive(Debug, Drop)]
pub enum Parsed {
    /// This file.
    File(File),
    /// The first of them isn't a package clause, or there isn't one.
    NoClause,
    /// This many declarations follow the package clause, and then a chunk that isn't one in its
    /// place.
    Bad(usize),
}

/// The file that chunks are.
fn file_of(alloc: Global, source: &[u8], tokens: &[Token], chunks: &[Chunk]) -> Mem<Parsed>
    requires few { length tokens.now < 2 ^ 32 }
    requires chunks { All (IsChunk source.now tokens.now) chunks.now }
    ensures { IfOk result (λ parsed. IsParsed source.now
        (words_in source.now tokens.now chunks.now) parsed) }
{
    let [first, rest @ ..] = chunks else {
        return Ok(Parsed::NoClause);
    };
    let Some(package) = clause_in(source, tokens, first) else {
        return Ok(Parsed::NoClause);
    };
    match declarations(alloc, source, tokens, rest)? {
        Declared::All(decls) => Ok(Parsed::File(File { package, decls })),
        Declared::Bad(at) => Ok(Parsed::Bad(at)),
    }
}

/// The line of an offset, counted from 1.
fn line_of(source: &[u8], offset: u32) -> u32
    requires within { offset ≤ length source.now }
    requires small { length source.now ≤ MAX_SOURCE_BYTES }
    ensures { result ≡ line_of source.now offset }
{
    let before = &source[..offset as usize];
    before.iter().filter(|byte| **byte == b'\n').count() as u32 + 1
}

/// The fault of the chunk after the package clause and this many declarations.
fn bad_declaration(source: &[u8], tokens: &[Token], chunks: &[Chunk], at: usize) -> Fault
    requires size { length source.now ≤ MAX_SOURCE_BYTES }
    requires few { length tokens.now < 2 ^ 32 }
    requires spans { All (IsWithin (length source.now)) tokens.now }
    requires chunks { AreChunks source.now tokens.now chunks.now }
    requires bad { IsBadAt source.now (words_in source.now tokens.now chunks.now) at }
    ensures { FileFault source.now tokens.now result }
{
    let place = chunks[at + 1].tokens.first;
    let offset = tokens[place as usize].span.start;
    Fault::BadDeclaration(at as u32 + 2, line_of(source, offset))
}

/// The file that tokens spell, of which there are fewer than 2^32.
fn file_in(alloc: Global, source: &[u8], tokens: &[Token]) -> Result<File, Refused>
    requires size { length source.now ≤ MAX_SOURCE_BYTES }
    requires few { length tokens.now < 2 ^ 32 }
    requires spans { All (IsWithin (length source.now)) tokens.now }
    ensures file { IfOk result (λ file. SpellsFile source.now tokens.now file) }
    ensures fault { IfErr result (RefusedFor source.now tokens.now) }
{
    let chunks = match chunks_of(alloc, source, tokens)? {
        Cut::Unbalanced(offset) => return Err(Refused::Fault(Fault::Unbalanced(offset))),
        Cut::Chunks(chunks) => chunks,
    };
    match file_of(alloc, source, tokens, &chunks)? {
        Parsed::File(file) => Ok(file),
        Parsed::NoClause => Err(Refused::Fault(Fault::NoPackageClause)),
        Parsed::Bad(at) => Err(Refused::Fault(bad_declaration(source, tokens, &chunks, at))),
    }
}

/// The file that the tokens of a source spell (Go specification, "Source file organization").
///
/// The condition is that the tokens and comments are those of the source, which has at most
/// [`MAX_SOURCE_BYTES`] bytes, as a scan gives them. The call fails with `Refused::Fault` exactly
/// where the tokens spell no file: with `Unbalanced` and a byte offset where brackets don't nest,
/// that of the first closing bracket that doesn't match the innermost open one, or else of the
/// first that is left open; else with `NoPackageClause` where the first chunk between semicolons is
/// no package clause; else with `BadDeclaration`, the number from 1 of the first chunk that is no
/// declaration in its place, and the line of its first token. It fails with `Refused::NoMemory`
/// where an allocation was refused.
pub fn parse_file(alloc: Global, source: &[u8], scanned: &Scanned) -> Result<File, Refused>
    requires size { length source.now ≤ MAX_SOURCE_BYTES }
    requires read { Reads source.now scanned.now.tokens scanned.now.comments }

    ensures file { IfOk result (λ file. SpellsFile source.now scanned.now.tokens file) }
    ensures fault { IfErr result (RefusedFor source.now scanned.now.tokens) }

    // Tokens that spell a file are read so, unless memory runs out.
    ensures found { (file : File) → SpellsFile source.now scanned.now.tokens file
        → MatchResult result (λ found. found ≡ file) (λ refused. refused ≡ refusals.NoMemory) }

    // Tokens that have a fault are refused for it, unless memory runs out.
    ensures refused { (fault : Fault) → FileFault source.now scanned.now.tokens fault
        → MatchResult result (λ file. ⊥) (λ refused. IsRefusedAs fault refused) }
{
    file_in(alloc, source, scanned.tokens.as_slice())
}
