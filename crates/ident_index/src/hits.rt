//! The identifiers of one file.

ghost use Rattle.std.specs.Prelude.{◌≡◌, ◌<◌, ◌≤◌, ℕ, IfOk, length, slice_index, slice_index_or};
ghost use Rattle.std.specs.List.Sorted.{IsNonDecreasingBy};
ghost use Rattle.go_ast.specs.declared.token.TheConstants.{MAX_SOURCE_BYTES};
ghost use Rattle.go_ast.specs.Position.{line_starts};
ghost use Rattle.go_scanner.specs.Results.{AreInOrder};
ghost use Rattle.ident_index.specs.Hits.{hits_of, kind_at};
ghost use Rattle.ident_index.specs.Naming.{Name, names_of_file};
ghost use Rattle.ident_index.specs.Places.{AreLinesTo, AreNamesBefore};

use crate::declarations::file_names;
use crate::hit::{Hit, HitKind};
use crate::names::Name;
use go_ast::{File, Scanned, TokenKind};
use plain_data::{Mem, Seq};
use std::alloc::Global;

/// How many lines begin at or before an offset, where this many are known to.
fn lines_to(starts: &[u32], known: usize, offset: u32) -> usize
    requires { AreLinesTo starts.now offset known }
    ensures so_many { AreLinesTo starts.now offset result }
    ensures no_more { result < length starts.now → offset < slice_index starts.now result }
{
    let mut count = known;
    while count < starts.len() && starts[count] <= offset {
        count += 1;
    }
    count
}

/// How many names stand before an offset, where this many are known to.
fn names_before(names: &[Name], known: usize, offset: u32) -> usize
    requires { AreNamesBefore names.now offset known }
    ensures so_many { AreNamesBefore names.now offset result }
    ensures no_more { (d : Name) → result < length names.now
        → offset ≤ (slice_index_or names.now result d).0 }
{
    let mut count = known;
    while count < names.len() && names[count].0 < offset {
        count += 1;
    }
    count
}

/// What the identifier at an offset is, where this many names stand before it.
fn kind_at(names: &[Name], before: usize, offset: u32) -> HitKind
    requires rising { IsNonDecreasingBy (λ name. name.0) names.now }
    requires so_many { AreNamesBefore names.now offset before }
    requires no_more { (d : Name) → before < length names.now
        → offset ≤ (slice_index_or names.now before d).0 }
    ensures { result ≡ kind_at names.now offset }
{
    if before < names.len() && names[before].0 == offset {
        names[before].1
    } else {
        HitKind::Usage
    }
}

/// The names that the declarations of a file declare, by their offsets; those at one offset in the
/// order of the file.
fn sorted_names(alloc: Global, file: &File) -> Mem<Vec<Name>>
    ensures rising { IfOk result (λ names. IsNonDecreasingBy (λ name. name.0) names.items) }
    ensures same { IfOk result (λ names. (offset : ℕ)
        → kind_at names.items offset ≡ kind_at (names_of_file file.now) offset) }
{
    let mut names = file_names(alloc, file)?;
    names.sort_by_key(|name| name.0)?;
    Ok(names)
}

/// How far a pass over the tokens has come: how many lines begin, and how many declared names
/// stand, before its place.
#[derive(Clone, Copy)]
struct Passed {
    lines: usize,
    names: usize,
}

/// The identifiers of a file with a number: one hit for each identifier among its tokens, in their
/// order, with its line and what it is by the place where it stands.
///
/// A name that the package clause, an import, a const, var or type declaration, a function, a
/// method, a named field of a struct type or a method of an interface type declares is of that
/// kind; every other identifier is a use. The source has been scanned, and has at most
/// [`MAX_SOURCE_BYTES`](go_ast::MAX_SOURCE_BYTES) bytes. (Go specification, "Declarations and
/// scope".)
///
/// # Errors
/// `NoMemory` where an allocation was refused.
pub fn hits_of(
    alloc: Global,
    source: &[u8],
    scanned: &Scanned,
    file: &File,
    number: u32,
) -> Mem<Seq<Hit>>
    requires size { length source.now ≤ MAX_SOURCE_BYTES }
    requires lines { scanned.now.lines ≡ line_starts source.now }
    requires spans { AreInOrder 0 scanned.now.tokens (length source.now) }
    ensures { IfOk result (λ hits. hits ≡ hits_of source.now scanned.now.tokens file.now number) }
{
    let names = sorted_names(alloc, file)?;
    let starts = scanned.lines.as_slice();
    let mut passed = Passed { lines: 0, names: 0 };
    let mut hits = Vec::new(alloc);
    for token in scanned.tokens.as_slice() {
        if token.kind == TokenKind::Ident {
            let offset = token.span.start;
            passed = Passed {
                lines: lines_to(starts, passed.lines, offset),
                names: names_before(names.as_slice(), passed.names, offset),
            };
            hits.push(Hit {
                file: number,
                offset,
                line: passed.lines as u32,
                kind: kind_at(names.as_slice(), passed.names, offset),
            })?;
        }
    }
    hits.shrink_to_fit();
    Ok(Seq::from_vec(hits))
}
