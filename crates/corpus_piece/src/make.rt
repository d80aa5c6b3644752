//! How the outcome of a file is found.

ghost use Rattle.std.specs.Prelude.{◌≡◌, ◌≤◌, IfOk, length};
ghost use Rattle.go_ast.specs.declared.token.TheConstants.{MAX_SOURCE_BYTES};
ghost use Rattle.go_ast.specs.Position.{line_starts};
ghost use Rattle.go_ast.specs.Reading.{Reads};
ghost use Rattle.go_scanner.specs.Results.{AreInOrder};
ghost use Rattle.corpus_piece.specs.Outcomes.{IsOutcomeOf};
ghost use Rattle.corpus_piece.specs.Refusals.{IsRefusalOf};
ghost use Rattle.corpus_piece.specs.Steps.{IsFoundOutcome, IsOutcomeOfBytes, IsOutcomeOfTokens};

use crate::outcome::{Outcome, Parsed};
use crate::piece::Piece;
use build_lines::{Admission, admits};
use go_ast::{Config, Fault, File, MAX_SOURCE_BYTES, Mem, NoMemory, Refused, Scanned, Seq};
use go_parser::parse_file;
use go_scanner::scan;
use ident_index::hits_of;
use std::alloc::Global;
use tree_io::Entry;

/// The values of a sequence, with no spare room.
fn shrunk<T>(items: Seq<T>) -> Seq<T>
    ensures { result ≡ items }
{
    let mut items = items.into_vec();
    items.shrink_to_fit();
    Seq::from_vec(items)
}

/// What a scan found, with no spare room.
fn shrunk_scan(scanned: Scanned) -> Scanned
    ensures { result ≡ scanned }
{
    let Scanned {
        tokens,
        comments,
        lines,
    } = scanned;
    Scanned {
        tokens: shrunk(tokens),
        comments: shrunk(comments),
        lines: shrunk(lines),
    }
}

/// A file, with no spare room in its list of declarations.
fn shrunk_file(file: File) -> File
    ensures { result ≡ file }
{
    let File { package, decls } = file;
    File {
        package,
        decls: shrunk(decls),
    }
}

/// The outcome of a file that was refused.
fn refusal(refused: Refused) -> Mem<Outcome>
    ensures { IfOk result (IsRefusalOf refused) }
{
    match refused {
        Refused::Fault(fault) => Ok(Outcome::Faulty(fault)),
        Refused::NoMemory => Err(NoMemory),
    }
}

/// The outcome of a file that is let in, by what a scan found in it.
fn outcome_of_scan(alloc: Global, bytes: &[u8], scanned: Scanned, number: u32) -> Mem<Outcome>
    requires small { length bytes.now ≤ MAX_SOURCE_BYTES }
    requires read { Reads bytes.now scanned.tokens scanned.comments }
    requires lines { scanned.lines ≡ line_starts bytes.now }
    requires spans { AreInOrder 0 scanned.tokens (length bytes.now) }
    ensures { IfOk result (IsOutcomeOfTokens bytes.now scanned.tokens scanned.comments number) }
{
    match parse_file(alloc, bytes, &scanned) {
        Err(refused) => refusal(refused),
        Ok(file) => {
            let hits = hits_of(alloc, bytes, &scanned, &file, number)?;
            Ok(Outcome::Accepted(Parsed {
                scanned: shrunk_scan(scanned),
                file: shrunk_file(file),
                hits,
            }))
        }
    }
}

fn outcome_of_bytes(
    alloc: Global,
    path: &str,
    bytes: &[u8],
    config: &Config,
    number: u32,
) -> Mem<Outcome>
    requires { length bytes.now ≤ MAX_SOURCE_BYTES }
    ensures { IfOk result (IsOutcomeOfBytes path.now bytes.now config.now number) }
{
    let scanned = match scan(alloc, bytes) {
        Err(refused) => return refusal(refused),
        Ok(scanned) => scanned,
    };
    match admits(alloc, path, bytes, &scanned, config)? {
        Admission::BadBuildLine(line) => Ok(Outcome::Faulty(Fault::BadBuildLine(line))),
        Admission::Ignored(why) => Ok(Outcome::Ignored(why)),
        Admission::Admitted => outcome_of_scan(alloc, bytes, scanned, number),
    }
}

/// The outcome of a file by what a scan of the tree has of it.
fn outcome_of(
    alloc: Global,
    path: &str,
    entry: &Entry,
    config: &Config,
    number: u32,
) -> Mem<Outcome>
    ensures { IfOk result (IsFoundOutcome path.now entry.now config.now number) }
{
    match entry {
        Entry::Unread => Ok(Outcome::Faulty(Fault::Unread)),
        Entry::Large => Ok(Outcome::Faulty(Fault::FileTooLarge)),
        Entry::Bytes(bytes) => {
            let bytes = bytes.as_slice();
            if bytes.len() > MAX_SOURCE_BYTES {
                return Ok(Outcome::Faulty(Fault::FileTooLarge));
            }
            outcome_of_bytes(alloc, path, bytes, config, number)
        }
    }
}

/// The piece of a file: its path, what a scan of the tree has of it, the configuration that it is
/// judged for, and its number, which its hits carry.
///
/// Its outcome is the first of these that applies: `Faulty(Unread)` where the file could not be
/// read; `Faulty(FileTooLarge)` where it has more than [`MAX_SOURCE_BYTES`]; the fault of a source
/// that has no reading (`NotUtf8`, `BadToken`, `OpenComment`, `OpenString`), also where the file
/// would be skipped; `Faulty(BadBuildLine)`; `Ignored(ByName)`; `Ignored(ByLine)`; the fault of
/// tokens that spell no file (`Unbalanced`, `NoPackageClause`, `BadDeclaration`); else `Accepted`.
/// Lines and chunks count from 1, offsets are in bytes. (Go specification, "Lexical elements",
/// "Source file organization"; the go command, "Build constraints".)
///
/// # Errors
/// `NoMemory` where an allocation was refused.
pub fn make_piece(
    alloc: Global,
    path: &str,
    entry: &Entry,
    config: &Config,
    number: u32,
) -> Mem<Piece>
    ensures path { IfOk result (λ piece. piece.path ≡ path.now) }
    ensures entry { IfOk result (λ piece. piece.entry ≡ entry.now) }
    ensures config { IfOk result (λ piece. piece.config ≡ config.now) }
    ensures number { IfOk result (λ piece. piece.number ≡ number) }
    ensures outcome { IfOk result (λ piece.
        IsOutcomeOf path.now entry.now config.now number piece.outcome) }
{
    let outcome = outcome_of(alloc, path, entry, config, number)?;
    Piece::new(alloc, path, entry, config, number, outcome)
}
