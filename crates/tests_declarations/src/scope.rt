//! What names of types lead to.

use name_scope::{Import, Imports, NamedPackage, Target, World, resolve_name};
use plain_data::{Seq, Txt};
use std::alloc::Global;
use std::process::Abort;
use std::test::Fail;

/// An import, by its local name and its path.
type Line<'a> = (&'a str, &'a str);

/// A package with one file, by its path, its name, its types and the imports of the file.
type Case<'a> = (&'a str, &'a str, &'a [&'a str], &'a [Line<'a>]);

fn texts_of(alloc: Global, texts: &[&str]) -> Result<Seq<Txt>, Fail> {
    let mut all = Seq::new(alloc);
    for text in texts {
        all.push(Txt::from_str(alloc, text)?)?;
    }
    Ok(all)
}

fn imports_of(alloc: Global, imports: &[Line]) -> Result<Seq<Imports>, Fail> {
    let mut list = Seq::new(alloc);
    for (local, path) in imports {
        list.push(Import {
            local: Txt::from_str(alloc, local)?,
            path: Txt::from_str(alloc, path)?,
        })?;
    }
    let mut files = Seq::new(alloc);
    let path = Txt::from_str(alloc, "f.go")?;
    files.push(Imports { path, list })?;
    Ok(files)
}

fn world_of(rt: &(impl Abort + AllocGlobal), cases: &[Case]) -> Result<World, Fail> {
    let alloc = rt.alloc();
    let mut packages = Seq::new(alloc);
    for (path, name, types, imports) in cases {
        packages.push(NamedPackage {
            path: Txt::from_str(alloc, path)?,
            name: Txt::from_str(alloc, name)?,
            types: texts_of(alloc, types)?,
            files: imports_of(alloc, imports)?,
        })?;
    }
    assert!(rt; packages.len() < 100);
    assert!(rt;
        packages
            .as_slice()
            .iter()
            .all(|package| package.types.len() < 100)
    );
    Ok(World::make(alloc, packages)?)
}

/// What a name leads to, as a text.
fn line_of(alloc: Global, world: &World, qualifier: &str, name: &str) -> Result<String, Fail> {
    let line = match resolve_name(alloc, world, 0, 0, qualifier, name)? {
        Target::Declared { package, index } => format!(in alloc; "{package}.{index}")?,
        Target::Predeclared(number) => format!(in alloc; "{number}")?,
        Target::Outside { path, name } => {
            let path = path.as_str();
            let name = name.as_str();
            format!(in alloc; "{path} {name}")?
        }
    };
    Ok(line)
}

/// The packages of the tests: the names are looked up in the first.
const CASES: [Case; 3] = [
    (
        "a",
        "a",
        &["T", "_", "T", "string", "U"],
        &[
            ("", "example.com/b/v2"),
            (".", "example.com/dot"),
            ("", "gopkg.in/yaml.v3"),
            ("", "example.com/c/v12"),
            ("", "v2"),
            ("x", "example.com/b/v2"),
            ("x", "other"),
            ("_", "other"),
            ("", "example.com/d/v"),
            ("", "example.com/e.v/v1x"),
            ("b", "never"),
        ],
    ),
    ("example.com/b/v2", "b", &["t", "B"], &[]),
    ("example.com/b", "other", &["B"], &[]),
];

/// What is looked up: what it shows, the qualifier, the name, and where it leads.
const NAMES: [(&str, &str, &str, &str); 20] = [
    ("the first of two types", "", "T", "0.0"),
    ("a type named by the blank identifier", "", "_", "0.1"),
    (
        "a declared type before a predeclared one",
        "",
        "string",
        "0.3",
    ),
    ("the first predeclared type", "", "any", "0"),
    (
        "a predeclared type out of the order of bytes",
        "",
        "complex128",
        "5",
    ),
    ("the last predeclared type", "", "uintptr", "21"),
    ("an unknown name", "", "V", "a V"),
    ("the name of a package at hand", "b", "B", "1.1"),
    ("a qualified name needs no capital", "b", "t", "1.0"),
    (
        "a predeclared name after a qualifier",
        "b",
        "int",
        "example.com/b/v2 int",
    ),
    ("a version after a dot", "yaml", "N", "gopkg.in/yaml.v3 N"),
    (
        "a version as the last segment",
        "c",
        "N",
        "example.com/c/v12 N",
    ),
    ("a version alone", "v2", "N", "v2 N"),
    ("v alone is not a version", "v", "N", "example.com/d/v N"),
    (
        "digits and a letter are not a version",
        "v1x",
        "N",
        "example.com/e.v/v1x N",
    ),
    ("the first import of a name decides", "x", "B", "1.1"),
    ("an import by the blank identifier", "_", "N", "other N"),
    ("a dot import has no local name", ".", "N", "?. N"),
    ("a dot import has no qualifier", "dot", "N", "?dot N"),
    ("no such import", "q", "N", "?q N"),
];

#[test]
fn names_lead_to_their_targets(rt: HostRuntime) -> Result<(), Fail> {
    let world = world_of(&rt, &CASES)?;
    for (shows, qualifier, name, line) in NAMES {
        let found = line_of(rt.alloc(), &world, qualifier, name)?;
        assert!(rt; found.as_str() == line, "{shows}");
    }
    assert!(rt; world.packages().len() == 3);
    Ok(())
}
