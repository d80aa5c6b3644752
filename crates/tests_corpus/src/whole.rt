ghost use Rattle.std.specs.Prelude.{◌<◌, ◌^◌, ◌↔◌, All, IfOk, IfSome, IsTrue};
ghost use Rattle.tree_io.specs.Path.{Belongs, IsRising, paths_of};
ghost use Rattle.tree_io.specs.Sources.{IsSources};
ghost use Rattle.corpus.specs.Corpora.{AreFilesOf};
ghost use Rattle.corpus.specs.Snapshots.{bytes_of};

use corpus::{Corpus, Snapshot, TooLarge, assemble, entry_size, one_corpus, own_tables};
use corpus_piece::{Piece, make_piece};
use go_ast::{Bytes, Config, Mem, Seq, Txt};
use std::alloc::Global;
use std::cmp::Ordering;
use std::process::Abort;
use std::test::Fail;
use tree_io::{Entry, belongs};

fn all_belong(entries: &[(Txt, Entry)]) -> bool
    ensures { IsTrue result ↔ All (λ entry. Belongs entry.0) entries.now }
{
    entries.iter().all(|entry| belongs(entry.0.as_str()))
}

fn all_rise(entries: &[(Txt, Entry)]) -> bool
    ensures { IsTrue result → IsRising (paths_of entries.now) }
{
    for place in 1..entries.len() {
        let before = entries[place - 1].0.as_str();
        if before.cmp(entries[place].0.as_str()) != Ordering::Less {
            return false;
        }
    }
    true
}

/// Whether these are the files of a tree of sources.
fn are_sources(entries: &[(Txt, Entry)]) -> bool
    ensures { IsTrue result → IsSources entries.now }
{
    all_belong(entries) && all_rise(entries)
}

/// How many bytes the files have together.
fn all_bytes(entries: &[(Txt, Entry)]) -> Option<u64>
    ensures { IfSome result (λ bytes. bytes_of entries.now < 2 ^ 64) }
{
    let mut bytes: u64 = 0;
    for (_, entry) in entries {
        bytes = bytes.checked_add(entry_size(entry))?;
    }
    Some(bytes)
}

fn pieces_of(alloc: Global, snapshot: &Snapshot) -> Mem<Seq<Piece>>
    ensures { IfOk result (AreFilesOf snapshot.now) }
{
    let mut pieces = Seq::new(alloc);
    for number in 0..snapshot.files() {
        let entry = snapshot.entry(number);
        let path = snapshot.path(number);
        pieces.push(make_piece(alloc, path, entry, snapshot.config(), number)?)?;
    }
    Ok(pieces)
}

/// The snapshot of some files, for Linux.
fn snapshot_of(
    rt: &(impl Abort + AllocGlobal),
    entries: Vec<(Txt, Entry)>,
) -> Result<Result<Snapshot, TooLarge>, Fail> {
    let alloc = rt.alloc();
    assert!(rt; are_sources(entries.as_slice()));
    assert!(rt; all_bytes(entries.as_slice()).is_some());
    let config = Config {
        goos: Txt::from_str(alloc, "linux")?,
        goarch: Txt::from_str(alloc, "amd64")?,
        tags: Seq::new(alloc),
        go_minor: 23,
        prefix: Txt::from_str(alloc, "")?,
    };
    Ok(Snapshot::make(config, Seq::from_vec(entries)))
}

/// An entry with these bytes, or the one that a word names.
fn entry_of(alloc: Global, bytes: &[u8]) -> Mem<Entry> {
    Ok(match bytes {
        b"unread" => Entry::Unread,
        b"large" => Entry::Large,
        _ => Entry::Bytes(Bytes::from_slice(alloc, bytes)?),
    })
}

/// The corpus of files with these entries.
fn corpus_of(rt: &(impl Abort + AllocGlobal), files: &[(&str, &[u8])]) -> Result<Corpus, Fail> {
    let alloc = rt.alloc();
    let mut entries = Vec::new(alloc);
    for (path, bytes) in files {
        entries.push((Txt::from_str(alloc, path)?, entry_of(alloc, bytes)?))?;
    }
    let snapshot = snapshot_of(rt, entries)?.expect(rt, "within the limits");
    let pieces = pieces_of(alloc, &snapshot)?;
    Ok(assemble(alloc, snapshot, pieces)?)
}

/// The faults of a corpus, a line for each.
fn fault_lines(rt: &(impl Abort + AllocGlobal), corpus: &Corpus) -> Result<String, Fail> {
    let alloc = rt.alloc();
    let mut lines = String::new(alloc);
    for fault in corpus.faults() {
        assert!(rt; fault.file < corpus.files());
        let path = corpus.path(fault.file);
        let fault = &fault.fault;
        let line = format!(in alloc; "{path}: {fault}\n")?;
        lines.push_str(line.as_str())?;
    }
    Ok(lines)
}

#[test]
fn faults_stand_in_the_order_of_the_files(rt: HostRuntime) -> Result<(), Fail> {
    let files: &[(&str, &[u8])] = &[
        ("q/a.go", b"package q\nfunc {\n}\n"),
        ("q/b.go", b"package q\n\xff"),
        ("q/c.go", b"unread"),
        ("q/d.go", b"package q\n"),
        ("q/e.go", b"package r\n"),
        ("q/f.go", b"large"),
    ];
    let corpus = corpus_of(&rt, files)?;
    let lines = fault_lines(&rt, &corpus)?;
    assert!(rt; lines.as_str() == FAULTS);
    assert!(rt; corpus.postings().total() == 1);
    Ok(())
}

/// The faults of that tree.
const FAULTS: &str = "q/a.go: fault 7: bad declaration 2 at line 2
q/b.go: fault 1: not UTF-8 at byte 10
q/c.go: fault 12: unread
q/e.go: fault 8: package r beside another package
q/f.go: fault 11: file too large
";

#[test]
fn an_empty_tree_has_an_empty_corpus(rt: HostRuntime) -> Result<(), Fail> {
    let corpus = corpus_of(&rt, &[])?;
    assert!(rt; corpus.packages().len() == 0);
    assert!(rt; corpus.faults().len() == 0);
    assert!(rt; corpus.config().go_minor == 23);
    one_corpus();
    own_tables(&corpus);
    Ok(())
}

#[test]
fn a_folder_of_tests_alone_is_a_package(rt: HostRuntime) -> Result<(), Fail> {
    let files: &[(&str, &[u8])] = &[("b.go", b"unread"), ("p/a_test.go", b"package p_test\n")];
    let corpus = corpus_of(&rt, files)?;
    let packages = corpus.packages();
    assert!(rt; packages.len() == 1);
    assert!(rt; packages[0].name.as_str() == "p");
    assert!(rt; packages[0].tests.as_slice() == [1u32].as_slice());
    Ok(())
}

#[test]
fn packages_and_files_are_found_by_their_paths(rt: HostRuntime) -> Result<(), Fail> {
    let files: &[(&str, &[u8])] = &[
        ("a/x.go", b"package a\n"),
        ("b/x.go", b"package b\n"),
        ("c/x.go", b"package c\n"),
    ];
    let corpus = corpus_of(&rt, files)?;
    assert!(rt; corpus.find_package("a") == Some(0));
    assert!(rt; corpus.find_package("c") == Some(2));
    assert!(rt; corpus.find_package("bb") == None);
    assert!(rt; corpus.find_file("c/x.go") == Some(2));
    assert!(rt; corpus.find_file("c/y.go") == None);
    Ok(())
}

/// This many files that could not be read.
fn unread_files(alloc: Global, count: u32) -> Mem<Vec<(Txt, Entry)>> {
    let mut entries = Vec::new(alloc);
    for number in 0..count {
        let path = format!(in alloc; "{number:05}.go")?;
        entries.push((Txt::from_string(path), Entry::Unread))?;
    }
    Ok(entries)
}

#[test]
fn a_scan_has_at_most_so_many_files(rt: HostRuntime) -> Result<(), Fail> {
    let entries = unread_files(rt.alloc(), 20_001)?;
    let told = snapshot_of(&rt, entries)?;
    assert!(rt; matches!(&told, Err(TooLarge::TooManyFiles(20_001))));
    Ok(())
}

#[test]
fn a_scan_has_at_most_so_many_bytes(rt: HostRuntime) -> Result<(), Fail> {
    let alloc = rt.alloc();
    let bytes = Bytes::from_vec(vec![in alloc; 0u8; 134_217_729]?);
    let mut entries = Vec::new(alloc);
    entries.push((Txt::from_str(alloc, "a.go")?, Entry::Bytes(bytes)))?;
    let told = snapshot_of(&rt, entries)?;
    assert!(rt; matches!(&told, Err(TooLarge::TooManyBytes(134_217_729))));
    Ok(())
}
