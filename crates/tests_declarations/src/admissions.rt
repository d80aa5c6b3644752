//! Which files are read, by their names and build lines.

use build_lines::Admission::{Admitted, BadBuildLine, Ignored};
use build_lines::Why::{ByLine, ByName};
use build_lines::{Admission, admits};
use go_ast::{Config, MAX_SOURCE_BYTES, Seq, Txt};
use go_scanner::scan;
use std::alloc::Global;
use std::process::Abort;
use std::test::Fail;

fn text(alloc: Global, text: &str) -> Result<Txt, Fail> {
    Ok(Txt::from_str(alloc, text)?)
}

/// A configuration with one further tag, at Go 1.23.
fn config(alloc: Global, goos: &str, goarch: &str, tag: &str) -> Result<Config, Fail> {
    let mut tags = Seq::new(alloc);
    tags.push(text(alloc, tag)?)?;
    Ok(Config {
        goos: text(alloc, goos)?,
        goarch: text(alloc, goarch)?,
        tags,
        go_minor: 23,
        prefix: text(alloc, "")?,
    })
}

/// Compares what is said of a file for a configuration.
fn assert_admission(
    rt: &(impl Abort + AllocGlobal),
    config: &Config,
    path: &str,
    source: &str,
    wanted: Admission,
) -> Result<(), Fail> {
    let source = source.as_bytes();
    assert!(rt; source.len() <= MAX_SOURCE_BYTES);
    match scan(rt.alloc(), source) {
        Ok(scanned) => {
            let found = admits(rt.alloc(), path, source, &scanned, config)?;
            assert!(rt; found == wanted, "{path} with {source:?}");
        }
        Err(refused) => assert!(rt; false, "{refused:?} of {source:?}"),
    }
    Ok(())
}

#[test]
fn names_exclude_systems_and_architectures(rt: HostRuntime) -> Result<(), Fail> {
    let linux = config(rt.alloc(), "linux", "amd64", "zos")?;
    for (path, wanted) in [
        ("x_linux_arm64.go", Ignored(ByName)),
        ("x_linux_amd64.go", Admitted),
        ("linux.go", Admitted),
        ("windows.go", Admitted),
        ("_linux.go", Admitted),
        ("_windows.go", Ignored(ByName)),
        ("linux_arm64.go", Ignored(ByName)),
        ("windows_amd64.go", Admitted),
        ("x_linux_test.go", Admitted),
        ("x_windows_test.go", Ignored(ByName)),
        ("x_test_windows.go", Ignored(ByName)),
        ("x_arm64_linux.go", Admitted),
        ("x_amd64_windows.go", Ignored(ByName)),
        ("x_plan9.go", Ignored(ByName)),
        ("x_zos.go", Admitted),
        ("x_unix.go", Admitted),
        ("a.b_windows.go", Admitted),
        ("p_windows/a.go", Admitted),
        ("p/x_windows.go", Ignored(ByName)),
    ] {
        assert_admission(&rt, &linux, path, "package p\n", wanted)?;
    }
    Ok(())
}

#[test]
fn expressions_hold_or_are_malformed(rt: HostRuntime) -> Result<(), Fail> {
    let linux = config(rt.alloc(), "linux", "amd64", "\u{E9}.1_")?;
    for (source, wanted) in [
        ("//go:build a&&b||!c", Admitted),
        ("//go:build linux||a&&b", Admitted),
        ("//go:build !(linux&&a) && ( amd64 )", Admitted),
        ("//go:build linux && a", Ignored(ByLine)),
        ("//go:build !unix || go1.99", Ignored(ByLine)),
        ("//go:build\t\u{E9}.1_ && gc", Admitted),
        ("//go:build go1.1 && go1.23", Admitted),
        ("//go:build go1.0", Ignored(ByLine)),
        ("//go:build go1.01", Ignored(ByLine)),
        ("//go:build go1.24", Ignored(ByLine)),
        ("//go:build go1.99999999999999999999", Ignored(ByLine)),
        ("//go:build (a", BadBuildLine(1)),
        ("//go:build a)", BadBuildLine(1)),
        ("//go:build ()", BadBuildLine(1)),
        ("//go:build a b", BadBuildLine(1)),
        ("//go:build !!a", BadBuildLine(1)),
        ("//go:build a||", BadBuildLine(1)),
        ("//go:build a & & b", BadBuildLine(1)),
        ("//go:build a|b", BadBuildLine(1)),
        ("//go:build a-b", BadBuildLine(1)),
        ("//go:build a // b", BadBuildLine(1)),
        ("//go:build ", BadBuildLine(1)),
    ] {
        assert_admission(&rt, &linux, "x.go", source, wanted)?;
    }
    Ok(())
}

#[test]
fn systems_imply_tags(rt: HostRuntime) -> Result<(), Fail> {
    let alloc = rt.alloc();
    for (goos, source, wanted) in [
        ("android", "//go:build linux && unix", Admitted),
        ("illumos", "//go:build solaris && unix", Admitted),
        ("ios", "//go:build darwin && unix", Admitted),
        ("linux", "//go:build android", Ignored(ByLine)),
        ("darwin", "//go:build ios", Ignored(ByLine)),
        ("aix", "//go:build unix", Admitted),
        ("hurd", "//go:build unix", Admitted),
        ("windows", "//go:build unix", Ignored(ByLine)),
        ("plan9", "//go:build unix", Ignored(ByLine)),
        ("js", "//go:build unix", Ignored(ByLine)),
    ] {
        let config = config(alloc, goos, "wasm", "t")?;
        assert_admission(&rt, &config, "x.go", source, wanted)?;
    }
    Ok(())
}

#[test]
fn build_lines_stand_alone_before_the_package_clause(rt: HostRuntime) -> Result<(), Fail> {
    let linux = config(rt.alloc(), "linux", "amd64", "t")?;
    for (source, wanted) in [
        ("", Admitted),
        ("\u{FEFF}//go:build a", Ignored(ByLine)),
        (" \t//go:build a\npackage p\n", Ignored(ByLine)),
        (";\n//go:build a\npackage p\n", Ignored(ByLine)),
        ("; //go:build a\npackage p\n", Admitted),
        ("/* */ //go:build a\npackage p\n", Admitted),
        ("/*\n*/ //go:build a\npackage p\n", Admitted),
        ("package p\n//go:build a\n", Admitted),
        (
            "//go:build linux\n\n//go:build (\npackage p\n",
            BadBuildLine(3),
        ),
        (
            "//go:build (\n//go:build linux\npackage p\n",
            BadBuildLine(1),
        ),
        ("//go:build linux\npackage p\n//go:build (\n", Admitted),
        ("\n//go:build", BadBuildLine(2)),
        ("//go:buildx\npackage p\n", Admitted),
        ("// go:build a\npackage p\n", Admitted),
        ("//go:build a\r\npackage p\n", Ignored(ByLine)),
        ("//go:build li\rnux\npackage p\n", BadBuildLine(1)),
        ("//go:build\ra\npackage p\n", Admitted),
    ] {
        assert_admission(&rt, &linux, "x.go", source, wanted)?;
    }
    Ok(())
}

#[test]
fn a_bad_line_comes_first_and_then_the_name(rt: HostRuntime) -> Result<(), Fail> {
    let linux = config(rt.alloc(), "linux", "amd64", "t")?;
    for (source, wanted) in [
        ("//go:build (a", BadBuildLine(1)),
        ("//go:build a\n//go:build a\n", BadBuildLine(2)),
        ("//go:build a", Ignored(ByName)),
        ("//go:build linux", Ignored(ByName)),
    ] {
        assert_admission(&rt, &linux, "x_windows.go", source, wanted)?;
    }
    Ok(())
}

#[test]
fn an_expression_has_a_hundred_levels(rt: HostRuntime) -> Result<(), Fail> {
    let alloc = rt.alloc();
    let linux = config(alloc, "linux", "amd64", "t")?;
    for (pairs, wanted) in [(99, Admitted), (100, BadBuildLine(1))] {
        let mut source = String::from_str(alloc, "//go:build ")?;
        for _ in 0..pairs {
            source.push('(')?;
        }
        source.push('t')?;
        for _ in 0..pairs {
            source.push(')')?;
        }
        assert_admission(&rt, &linux, "x.go", source.as_str(), wanted)?;
    }
    Ok(())
}
