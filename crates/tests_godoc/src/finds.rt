use go_ast::{Bytes, Seq, Txt};
use godoc_commands::{Status, run};
use link_io::{MemSink, MemSource};
use std::alloc::Global;
use std::sync::Wait;
use std::test::Fail;
use tree_io::{MemTree, Tree};

/// A tree of one version, whose calls with these numbers fail.
fn tree_of(alloc: Global, files: &[(&str, &[u8])], failing: &[u64]) -> Result<MemTree, Fail> {
    let mut version = Seq::new(alloc);
    for (path, bytes) in files {
        let path = Txt::from_str(alloc, path)?;
        version.push((path, Bytes::from_slice(alloc, bytes)?))?;
    }
    let mut versions = Seq::new(alloc);
    versions.push(version)?;
    let failing = Vec::from_slice(alloc, failing)?;
    Ok(MemTree::new(alloc, versions, failing)?)
}

/// The words of a command line.
fn words_of(alloc: Global, words: &[&str]) -> Result<Vec<String>, Fail> {
    let mut all = Vec::new(alloc);
    for word in words {
        all.push(String::from_str(alloc, word)?)?;
    }
    Ok(all)
}

/// How a run ended over a tree, and what it wrote, by at most `most` bytes a write.
fn run_on<R: Wait>(
    rt: &R,
    alloc: Global,
    words: &[&str],
    tree: &mut MemTree,
    most: usize,
    failing_writes: &[u64],
) -> Result<(Status, Vec<u8>), Fail> {
    let words = words_of(alloc, words)?;
    let mut input = MemSource::new(Vec::new(alloc), Vec::new(alloc), Vec::new(alloc));
    let mut out = MemSink::new(alloc, most.max(1), Vec::from_slice(alloc, failing_writes)?);
    let status = run(rt, alloc, words.as_slice(), tree, &mut input, &mut out);
    Ok((status, Vec::from_slice(alloc, out.held())?))
}

const TWO_HITS: &[u8] = b"package e\n// err is here\nvar err, s = f(err), \"err\"\n";

#[test]
fn finds_identifiers_alone(rt: HostRuntime) -> Result<(), Fail> {
    let mut tree = tree_of(rt.alloc(), &[("e.go", TWO_HITS)], &[])?;
    let (status, written) = run_on(&rt, rt.alloc(), &["find", "err"], &mut tree, 4096, &[])?;
    assert!(rt; status == Status::Done);
    assert!(rt; written.as_slice() == b"e.go:3:5\ne.go:3:16\n".as_slice());
    Ok(())
}

#[test]
fn finds_in_the_order_of_the_paths(rt: HostRuntime) -> Result<(), Fail> {
    let files: [(&str, &[u8]); 9] = [
        ("b.go", b"package p"),
        ("a/c.go", b"package p\r\nvar  p int\n"),
        ("vendor/v.go", b"package p"),
        ("testdata/t.go", b"package p"),
        (".x/x.go", b"package p"),
        ("_x/x.go", b"package p"),
        ("c.txt", b"package p"),
        ("faulty.go", b"package p; var _ = 08"),
        ("a.go", b"package p; var _ = \"p\" // p\nvar _ = p.p"),
    ];
    let mut tree = tree_of(rt.alloc(), &files, &[])?;
    let (status, written) = run_on(&rt, rt.alloc(), &["find", "p"], &mut tree, 1, &[])?;
    assert!(rt; status == Status::Done);
    let wanted = b"a.go:1:9\na.go:2:9\na.go:2:11\na/c.go:1:9\na/c.go:2:6\nb.go:1:9\n";
    assert!(rt; written.as_slice() == wanted.as_slice());
    Ok(())
}

#[test]
fn passes_over_what_spells_no_file(rt: HostRuntime) -> Result<(), Fail> {
    let files: [(&str, &[u8]); 6] = [
        ("a.go", b"x"),
        ("b.go", b"package x\nfunc {\n}\n"),
        ("c.go", b"package x; func x() { x("),
        ("d.go", b"package x; var x = 1; import \"x\""),
        ("e.go", b"package x; func x() { x( }}}"),
        ("f.go", b"package f; func (x T) f() { x() }"),
    ];
    let mut tree = tree_of(rt.alloc(), &files, &[])?;
    let (status, written) = run_on(&rt, rt.alloc(), &["find", "x"], &mut tree, 4096, &[])?;
    assert!(rt; status == Status::Done);
    assert!(rt; written.as_slice() == b"f.go:1:18\nf.go:1:29\n".as_slice());
    Ok(())
}

#[test]
fn passes_over_what_fails_to_be_read(rt: HostRuntime) -> Result<(), Fail> {
    let files: [(&str, &[u8]); 2] = [("a.go", b"package x"), ("b.go", b"package x")];
    let mut tree = tree_of(rt.alloc(), &files, &[3])?;
    let (status, written) = run_on(&rt, rt.alloc(), &["find", "x"], &mut tree, 4096, &[])?;
    assert!(rt; status == Status::Done);
    assert!(rt; written.as_slice() == b"b.go:1:9\n".as_slice());
    Ok(())
}

#[test]
fn tells_a_tree_that_fails(rt: HostRuntime) -> Result<(), Fail> {
    for call in [1, 2] {
        let mut tree = tree_of(rt.alloc(), &[("e.go", TWO_HITS)], &[call])?;
        let (status, written) = run_on(&rt, rt.alloc(), &["find", "err"], &mut tree, 4096, &[])?;
        assert!(rt; status == Status::TreeFault);
        assert!(rt; written.is_empty());
    }
    Ok(())
}

#[test]
fn tells_an_output_that_fails(rt: HostRuntime) -> Result<(), Fail> {
    for (call, wanted) in [(1, b"".as_slice()), (2, b"e.go:"), (4, b"e.go:3:5\ne.go:3")] {
        let mut tree = tree_of(rt.alloc(), &[("e.go", TWO_HITS)], &[])?;
        let (status, written) = run_on(&rt, rt.alloc(), &["find", "err"], &mut tree, 5, &[call])?;
        assert!(rt; status == Status::WriteFault);
        assert!(rt; written.as_slice() == wanted);
    }
    Ok(())
}

#[test]
fn refuses_other_words(rt: HostRuntime) -> Result<(), Fail> {
    for words in [
        [].as_slice(),
        &["find"],
        &["find", "9x"],
        &["find", "func"],
        &["find", ""],
        &["find", "a-b"],
        &["find", "\u{2167}"],
        &["find", "x", "y"],
        &["fine", "x"],
        &["--workers", "65", "find", "x"],
        &["gen", "1"],
    ] {
        let mut tree = tree_of(rt.alloc(), &[("e.go", TWO_HITS)], &[1, 2, 3])?;
        let (status, written) = run_on(&rt, rt.alloc(), words, &mut tree, 4096, &[1])?;
        assert!(rt; status == Status::Usage, "{words:?}");
        assert!(rt; written.is_empty());
    }
    Ok(())
}

#[test]
fn takes_an_underscore_for_a_name(rt: HostRuntime) -> Result<(), Fail> {
    let mut tree = tree_of(rt.alloc(), &[("e.go", b"package e; var _ = _x")], &[])?;
    let (status, written) = run_on(&rt, rt.alloc(), &["find", "_"], &mut tree, 4096, &[])?;
    assert!(rt; status == Status::Done);
    assert!(rt; written.as_slice() == b"e.go:1:16\n".as_slice());
    Ok(())
}

#[test]
fn leaves_out_files_for_another_platform(rt: HostRuntime) -> Result<(), Fail> {
    let files: [(&str, &[u8]); 5] = [
        ("a.go", b"package x"),
        ("b.go", b"//go:build ignore\n\npackage x\n"),
        (
            "c.go",
            b"//go:build linux && amd64 && go1.23\n\npackage x\n",
        ),
        ("x_linux.go", b"package x"),
        ("x_windows.go", b"package x"),
    ];
    let mut tree = tree_of(rt.alloc(), &files, &[])?;
    let (status, written) = run_on(&rt, rt.alloc(), &["find", "x"], &mut tree, 4096, &[])?;
    assert!(rt; status == Status::Done);
    let wanted = b"a.go:1:9\nc.go:3:9\nx_linux.go:1:9\n";
    assert!(rt; written.as_slice() == wanted.as_slice());
    Ok(())
}

#[test]
fn leaves_out_files_beside_another_package(rt: HostRuntime) -> Result<(), Fail> {
    let files: [(&str, &[u8]); 6] = [
        ("q/a.go", b"package q; var x = 1"),
        ("q/b.go", b"package r; var x = 1"),
        ("q/c_test.go", b"package q_test; var x = 1"),
        ("q/d_test.go", b"package x"),
        ("r/b.go", b"package r; var x = 1"),
        ("t/t_test.go", b"package x_test; var x = 1"),
    ];
    let mut tree = tree_of(rt.alloc(), &files, &[])?;
    let (status, written) = run_on(&rt, rt.alloc(), &["find", "x"], &mut tree, 4096, &[])?;
    assert!(rt; status == Status::Done);
    let wanted = b"q/a.go:1:16\nq/c_test.go:1:21\nr/b.go:1:16\nt/t_test.go:1:21\n";
    assert!(rt; written.as_slice() == wanted.as_slice());
    Ok(())
}

#[test]
fn finds_nothing_in_an_empty_tree(rt: HostRuntime) -> Result<(), Fail> {
    let mut tree = tree_of(rt.alloc(), &[], &[])?;
    let (status, written) = run_on(&rt, rt.alloc(), &["find", "x"], &mut tree, 4096, &[])?;
    assert!(rt; status == Status::Done);
    assert!(rt; written.is_empty());
    Ok(())
}

/// A tree of one version with these files, whose call with this number fails.
fn tree_of_version(
    alloc: Global,
    version: Seq<(Txt, Bytes)>,
    failing: u64,
) -> Result<MemTree, Fail> {
    let mut versions = Seq::new(alloc);
    versions.push(version)?;
    Ok(MemTree::new(alloc, versions, Vec::from_slice(alloc, &[failing])?)?)
}

/// A tree with this many empty files, whose third call fails.
fn tree_of_many(alloc: Global, count: u32) -> Result<MemTree, Fail> {
    let mut version = Seq::new(alloc);
    for number in 0..count {
        let path = Txt::from_string(format!(in alloc; "{number}.go")?);
        version.push((path, Bytes::from_slice(alloc, &[])?))?;
    }
    tree_of_version(alloc, version, 3)
}

#[test]
fn tells_a_tree_with_too_many_files(rt: HostRuntime) -> Result<(), Fail> {
    for words in [["find", "x"].as_slice(), &["answer"]] {
        let mut tree = tree_of_many(rt.alloc(), 20_001)?;
        let (status, written) = run_on(&rt, rt.alloc(), words, &mut tree, 4096, &[])?;
        let wanted = Status::Limit {
            files: 20_001,
            bytes: 0,
        };
        assert!(rt; status == wanted);
        assert!(rt; written.is_empty());
        // The scan was opened and listed, and nothing was read: this is the third call.
        assert!(rt; tree.open_scan().is_err());
    }
    Ok(())
}

#[test]
fn takes_as_many_files_as_are_allowed(rt: HostRuntime) -> Result<(), Fail> {
    let mut tree = tree_of_many(rt.alloc(), 20_000)?;
    let (status, _) = run_on(&rt, rt.alloc(), &["find", "x"], &mut tree, 4096, &[])?;
    assert!(rt; status == Status::Done);
    Ok(())
}

#[test]
fn tells_a_tree_with_too_many_bytes(rt: HostRuntime) -> Result<(), Fail> {
    let alloc = rt.alloc();
    let largest = vec![in alloc; b'\n'; 4_194_304]?;
    let mut version = Seq::new(alloc);
    for number in 10..42 {
        let path = Txt::from_string(format!(in alloc; "{number}.go")?);
        version.push((path, Bytes::from_slice(alloc, largest.as_slice())?))?;
    }
    for path in ["42.go", "43.go"] {
        let path = Txt::from_str(alloc, path)?;
        version.push((path, Bytes::from_slice(alloc, b"\n")?))?;
    }
    let mut tree = tree_of_version(alloc, version, 36)?;
    let (status, written) = run_on(&rt, alloc, &["find", "x"], &mut tree, 4096, &[])?;
    let wanted = Status::Limit {
        files: 0,
        bytes: 134_217_729,
    };
    assert!(rt; status == wanted);
    assert!(rt; written.is_empty());
    // The file after the one with which the bytes pass wasn't read: this is the 36th call.
    assert!(rt; tree.open_scan().is_err());
    Ok(())
}
