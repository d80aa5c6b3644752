//! The accepted files of a snapshot.

ghost use Rattle.std.specs.Prelude.{◌≡◌, ◌<◌, Some, All, IfOk, OnOk, codes, length, map};
ghost use Rattle.std.specs.Prelude.{nat_eq, slice_get};
ghost use Rattle.tree_io.specs.Path.{paths_of};
ghost use Rattle.std.specs.Option.{option_map};
ghost use Rattle.std.specs.List.{ends_with, slice_index_or};
ghost use Rattle.package_group.specs.declared.facts.FileFact.{FileFact};
ghost use Rattle.corpus_piece.specs.Pieces.{IsJudged, JudgedFile};
ghost use Rattle.corpus.specs.Corpora.{AreFilesOf, accepted, accepted_as, bytes_in, fact_of};
ghost use Rattle.corpus.specs.Corpora.{package_name};
ghost use Rattle.corpus.specs.Snapshots.{IsSnapshot};
ghost use Rattle.corpus.specs.Steps.{HasName, seen};

use crate::snapshot::Snapshot;
use corpus_piece::{Outcome, Parsed, Piece};
use go_ast::{Mem, Txt};
use package_group::FileFact;
use std::alloc::Global;
use tree_io::Entry;

/// An accepted file, with what was read in it.
#[derive(Clone, Copy)]
pub(crate) struct Accepted<'a> {
    pub(crate) number: u32,
    pub(crate) path: &'a str,
    pub(crate) bytes: &'a [u8],
    pub(crate) parsed: &'a Parsed,
}

/// The bytes that a scan has of a file.
fn bytes_in(entry: &Entry) -> &[u8]
    ensures { result.now ≡ bytes_in entry.now }
{
    match entry {
        Entry::Bytes(bytes) => bytes.as_slice(),
        Entry::Large | Entry::Unread => &[],
    }
}

impl<'a> Accepted<'a> {
    /// The accepted file with a number.
    pub(crate) fn new(snapshot: &'a Snapshot, number: u32, parsed: &'a Parsed) -> Accepted<'a>
        requires { number < length snapshot.now.entries }
        ensures number { result.number ≡ number }
        ensures path { slice_get (paths_of snapshot.now.entries) number ≡ Some result.path.now }
        ensures bytes { option_map bytes_in
            (slice_get (map (λ e. e.1) snapshot.now.entries) number) ≡ Some result.bytes.now }
        ensures parsed { result.parsed.now ≡ parsed.now }
    {
        Accepted {
            number,
            path: snapshot.path(number),
            bytes: bytes_in(snapshot.entry(number)),
            parsed,
        }
    }

    /// The name in its package clause.
    pub(crate) fn package_name(&self) -> &'a str
        requires { HasName (seen self.now) }
        ensures { result.now ≡ package_name (seen self.now) }
    {
        let name = self.parsed.file.package;
        str::from_utf8(&self.bytes[name.start as usize..name.end as usize]).unwrap()
    }

    /// What grouping has to know of it.
    fn fact(&self, alloc: Global) -> Mem<FileFact>
        requires { HasName (seen self.now) }
        ensures { IfOk result (λ fact. fact ≡ fact_of (seen self.now)) }
    {
        Ok(FileFact {
            path: Txt::from_str(alloc, self.path)?,
            name: Txt::from_str(alloc, self.package_name())?,
            test: is_test_path(self.path),
        })
    }
}

fn is_test_path(path: &str) -> bool
    ensures { result ≡ ends_with nat_eq path.now (codes "_test.go") }
{
    path.ends_with("_test.go")
}

fn accepted_file<'a>(
    snapshot: &'a Snapshot,
    pieces: &'a [Piece],
    number: u32,
) -> Option<Accepted<'a>>
    requires files { AreFilesOf snapshot.now pieces.now }
    requires within { number < length snapshot.now.entries }
    ensures accepted { (d : JudgedFile) → let f = slice_index_or pieces.now number d in
        option_map seen result ≡ accepted_as f f.outcome }
    ensures judged { (d : JudgedFile) → IsJudged (slice_index_or pieces.now number d) }
{
    match pieces[number as usize].outcome() {
        Outcome::Accepted(parsed) => Some(Accepted::new(snapshot, number, parsed)),
        _ => None,
    }
}

pub(crate) fn accepted_files<'a>(
    alloc: Global,
    snapshot: &'a Snapshot,
    pieces: &'a [Piece],
) -> Mem<Vec<Accepted<'a>>>
    requires { AreFilesOf snapshot.now pieces.now }
    ensures accepted { IfOk result (λ files. map seen files.items ≡ accepted pieces.now) }
    ensures judged { OnOk result (All IsJudged pieces.now) }
    ensures valid { OnOk result (IsSnapshot snapshot.now) }
{
    let mut files = Vec::new(alloc);
    for number in 0..snapshot.files() {
        if let Some(file) = accepted_file(snapshot, pieces, number) {
            files.push(file)?;
        }
    }
    Ok(files)
}

/// What grouping has to know of accepted files.
pub(crate) fn facts(alloc: Global, files: &[Accepted]) -> Mem<Vec<FileFact>>
    requires { All (λ file. HasName (seen file)) files.now }
    ensures { IfOk result (λ facts. facts.items ≡ map (λ file. fact_of (seen file)) files.now) }
{
    let mut facts = Vec::new(alloc);
    for file in files {
        facts.push(file.fact(alloc)?)?;
    }
    Ok(facts)
}
