use corpus_piece::{Outcome, Piece, make_piece, one_outcome};
use go_ast::{Bytes, Config, MAX_SOURCE_BYTES, Mem, Seq, Txt};
use ident_index::{Hit, HitKind};
use std::alloc::Global;
use std::test::Fail;
use tree_io::Entry;

/// A system on amd64, Go 1.23 and no tags.
fn config(alloc: Global, system: &str) -> Mem<Config> {
    Ok(Config {
        goos: Txt::from_str(alloc, system)?,
        goarch: Txt::from_str(alloc, "amd64")?,
        tags: Seq::new(alloc),
        go_minor: 23,
        prefix: Txt::from_str(alloc, "")?,
    })
}

/// The piece of a source on a system.
fn piece_on(alloc: Global, system: &str, path: &str, source: &[u8]) -> Mem<Piece> {
    let entry = Entry::Bytes(Bytes::from_slice(alloc, source)?);
    make_piece(alloc, path, &entry, &config(alloc, system)?, 7)
}

/// Why a file isn't accepted, or how many declarations it has.
fn told(alloc: Global, piece: &Piece) -> Result<String, Fail> {
    Ok(match piece.outcome() {
        Outcome::Ignored(why) => format!(in alloc; "{why:?}")?,
        Outcome::Faulty(fault) => format!(in alloc; "{fault:?}")?,
        Outcome::Accepted(parsed) => format!(in alloc; "{} declarations", parsed.file.decls.len())?,
    })
}

/// The same of a source on Linux.
fn told_of(alloc: Global, path: &str, source: &[u8]) -> Result<String, Fail> {
    told(alloc, &piece_on(alloc, "linux", path, source)?)
}

#[test]
fn files_are_passed_over_by_their_names_and_build_lines(rt: HostRuntime) -> Result<(), Fail> {
    let alloc = rt.alloc();
    let named = told_of(alloc, "a/x_linux_arm64.go", b"package p\n")?;
    assert!(rt; named.as_str() == "ByName");
    let admitted = told_of(alloc, "a/linux.go", b"package p\nvar v int\n")?;
    assert!(rt; admitted.as_str() == "1 declarations");
    let lined = told_of(alloc, "a/x.go", b"//go:build !unix || go1.99\npackage p\n")?;
    assert!(rt; lined.as_str() == "ByLine");
    Ok(())
}

#[test]
fn a_malformed_build_line_is_a_fault_before_the_name(rt: HostRuntime) -> Result<(), Fail> {
    let told = told_of(rt.alloc(), "x_windows.go", b"//go:build (a\npackage p\n")?;
    assert!(rt; told.as_str() == "BadBuildLine(1)");
    Ok(())
}

#[test]
fn an_excluded_file_that_cannot_be_scanned_is_a_fault(rt: HostRuntime) -> Result<(), Fail> {
    let alloc = rt.alloc();
    let named = told_of(alloc, "x_windows.go", b"package p /* open")?;
    assert!(rt; named.as_str() == "OpenComment(10)");
    let lined = told_of(alloc, "x.go", b"//go:build windows\npackage p\xff")?;
    assert!(rt; lined.as_str() == "NotUtf8(28)");
    Ok(())
}

#[test]
fn tokens_are_judged_after_the_name(rt: HostRuntime) -> Result<(), Fail> {
    let alloc = rt.alloc();
    let excluded = told_of(alloc, "x_windows.go", b"var x int\n")?;
    assert!(rt; excluded.as_str() == "ByName");
    let windows = piece_on(alloc, "windows", "x_windows.go", b"var x int\n")?;
    let admitted = told(alloc, &windows)?;
    assert!(rt; admitted.as_str() == "NoPackageClause");
    Ok(())
}

#[test]
fn tokens_that_spell_no_file_are_a_fault(rt: HostRuntime) -> Result<(), Fail> {
    let alloc = rt.alloc();
    let open = told_of(alloc, "x.go", b"package p\nfunc f() {")?;
    assert!(rt; open.as_str() == "Unbalanced(19)");
    let bare = told_of(alloc, "x.go", b"var x int\n")?;
    assert!(rt; bare.as_str() == "NoPackageClause");
    let bad = told_of(alloc, "x.go", b"package p\n\nvar x int\nvar = 1\n")?;
    assert!(rt; bad.as_str() == "BadDeclaration(3, 4)");
    Ok(())
}

#[test]
fn what_is_too_large_or_unread_is_a_fault(rt: HostRuntime) -> Result<(), Fail> {
    let alloc = rt.alloc();
    let config = config(alloc, "linux")?;
    let large = told(
        alloc,
        &make_piece(alloc, "x.go", &Entry::Large, &config, 0)?,
    )?;
    assert!(rt; large.as_str() == "FileTooLarge");
    let unread = told(
        alloc,
        &make_piece(alloc, "x.go", &Entry::Unread, &config, 0)?,
    )?;
    assert!(rt; unread.as_str() == "Unread");
    let long = vec![in alloc; b'\n'; MAX_SOURCE_BYTES + 1]?;
    let longer = told_of(alloc, "x_windows.go", &long)?;
    assert!(rt; longer.as_str() == "FileTooLarge");
    Ok(())
}

/// The hits of an accepted file.
fn hits(piece: &Piece) -> &[Hit] {
    match piece.outcome() {
        Outcome::Accepted(parsed) => parsed.hits.as_slice(),
        _ => &[],
    }
}

fn hit(offset: u32, line: u32, kind: HitKind) -> Hit {
    Hit {
        file: 7,
        offset,
        line,
        kind,
    }
}

#[test]
fn hits_carry_the_number_of_the_file(rt: HostRuntime) -> Result<(), Fail> {
    let piece = piece_on(
        rt.alloc(),
        "linux",
        "x_test.go",
        b"package p // q\nvar v int\n",
    )?;
    assert!(rt; piece.path() == "x_test.go");
    let expected = [
        hit(8, 1, HitKind::PackageName),
        hit(19, 2, HitKind::VarName),
        hit(21, 2, HitKind::Usage),
    ];
    assert!(rt; hits(&piece) == expected.as_slice());
    one_outcome();
    Ok(())
}

/// The kinds of the hits of an accepted source, in their order.
fn kinds(alloc: Global, source: &[u8]) -> Mem<Vec<HitKind>> {
    let piece = piece_on(alloc, "linux", "x.go", source)?;
    let mut kinds = Vec::new(alloc);
    for hit in hits(&piece) {
        kinds.push(hit.kind)?;
    }
    Ok(kinds)
}

#[test]
fn imports_and_values_have_their_kinds(rt: HostRuntime) -> Result<(), Fail> {
    let source = b"package p\nimport q \"a\"\nimport \"b\"\nconst C, D T = x, 1\nvar v T\n";
    let told = kinds(rt.alloc(), source)?;
    let expected = [
        HitKind::PackageName,
        HitKind::ImportName,
        HitKind::ConstName,
        HitKind::ConstName,
        HitKind::Usage,
        HitKind::Usage,
        HitKind::VarName,
        HitKind::Usage,
    ];
    assert!(rt; told.as_slice() == expected.as_slice());
    Ok(())
}

#[test]
fn the_parts_of_types_have_their_kinds(rt: HostRuntime) -> Result<(), Fail> {
    let source = b"package p\ntype S[P E] struct { f, g U; H }\ntype I interface { m(a A) }\n";
    let told = kinds(rt.alloc(), source)?;
    let expected = [
        HitKind::PackageName,
        HitKind::TypeName,
        HitKind::Usage,
        HitKind::Usage,
        HitKind::VarName,
        HitKind::VarName,
        HitKind::Usage,
        HitKind::Usage,
        HitKind::TypeName,
        HitKind::MethodName,
        HitKind::Usage,
        HitKind::Usage,
    ];
    assert!(rt; told.as_slice() == expected.as_slice());
    Ok(())
}

#[test]
fn what_stands_in_a_body_is_a_use(rt: HostRuntime) -> Result<(), Fail> {
    let source = b"package p\nfunc (s *S) n() { type L struct { z Z } }\nfunc F() {}\n";
    let told = kinds(rt.alloc(), source)?;
    let expected = [
        HitKind::PackageName,
        HitKind::Usage,
        HitKind::Usage,
        HitKind::MethodName,
        HitKind::Usage,
        HitKind::Usage,
        HitKind::Usage,
        HitKind::FuncName,
    ];
    assert!(rt; told.as_slice() == expected.as_slice());
    Ok(())
}
