ghost use Rattle.std.specs.Prelude.{IfOk};
ghost use Rattle.tree_io.specs.Entries.{IsScannedFrom};

use plain_data::{Bytes, IoFail, Mem, Seq, Txt};
use std::alloc::Global;
use std::fs::ReadDir;
use std::io::{ErrorKind, Read};
use std::os::unix::fs::symlink;
use std::test::Fail;
use std::{env, fs, io};
use tree_io::{
    Entry, FsTree, MAX_ENTRIES, MAX_PATH_BYTES, MemTree, Tree, Walk, belongs, full_path, is_folder,
    join, may_lead, names_that_lead, read_entry, read_entry_from, visit_all, visit_named,
};

#[test]
fn paths_that_belong(rt: HostRuntime) -> Result<(), Fail> {
    for (path, wanted) in [
        ("a.go", true),
        ("vendor.go", true),
        ("x.y/z_w.go", true),
        ("x/y/testdata.go", true),
        ("vendor/a.go", false),
        ("x/vendor/a.go", false),
        ("testdata/a.go", false),
        (".x/a.go", false),
        ("_x/a.go", false),
        ("x/.a.go", false),
        ("x/_a.go", false),
        ("a.c", false),
        ("ago", false),
        ("a.go/", false),
        ("a//b.go", false),
        ("/a.go", false),
        ("testdata", false),
        (".go", false),
        ("", false),
        ("a\x1f.go", false),
        ("a\x7f.go", false),
        ("a\u{80}.go", true),
    ] {
        assert!(rt; belongs(path) == wanted, "{path:?}");
    }
    let longest = long_path(rt.alloc(), MAX_PATH_BYTES)?;
    assert!(rt; longest.len() == 4096);
    assert!(rt; belongs(longest.as_str()));
    let longer = long_path(rt.alloc(), MAX_PATH_BYTES + 1)?;
    assert!(rt; longer.len() == 4097);
    assert!(rt; !belongs(longer.as_str()));
    Ok(())
}

/// A path of this many bytes.
fn long_path(alloc: Global, length: usize) -> Result<String, Fail> {
    let mut path = String::new(alloc);
    for _ in 3..length {
        path.push('a')?;
    }
    path.push_str(".go")?;
    Ok(path)
}

/// Scans a tree: lists it and reads each path. A read that fails leaves its entry unread.
fn scan<T: Tree>(alloc: Global, tree: &mut T) -> Result<Seq<(Txt, Entry)>, IoFail>
    ensures { IfOk result (λ sources. IsScannedFrom (T.scans tree.new) sources
        (T.read_faults tree.old) (T.read_faults tree.new)) }
{
    if tree.open_scan().is_err() {
        return Err(IoFail::Failed);
    }
    let paths = tree.list(alloc)?;
    let mut sources = Seq::new(alloc);
    for path in paths.as_slice() {
        let entry = match tree.read(alloc, path.as_str()) {
            Ok(entry) => entry,
            Err(IoFail::Failed) => Entry::Unread,
            Err(IoFail::NoMemory) => return Err(IoFail::NoMemory),
        };
        sources.push((Txt::from_str(alloc, path.as_str())?, entry))?;
    }
    Ok(sources)
}

/// One line of a scan: each path, and after it its bytes, `+` where they are too many, or `-`
/// where they weren't read.
fn shown<T: Tree>(alloc: Global, tree: &mut T) -> Result<String, Fail> {
    let mut text = String::new(alloc);
    match scan(alloc, tree) {
        Ok(sources) => {
            for (path, entry) in sources.as_slice() {
                text.push_str(path.as_str())?;
                text.push(' ')?;
                text.push_str(shown_entry(entry))?;
                text.push(';')?;
            }
        }
        Err(IoFail::Failed) => text.push_str("failed")?,
        Err(IoFail::NoMemory) => text.push_str("no memory")?,
    }
    Ok(text)
}

fn shown_entry(entry: &Entry) -> &str {
    match entry {
        Entry::Bytes(bytes) => std::str::from_utf8(bytes.as_slice()).unwrap_or("?"),
        Entry::Large => "+",
        Entry::Unread => "-",
    }
}

/// A version of a tree, from paths and texts.
fn version(alloc: Global, files: &[(&str, &str)]) -> Mem<Seq<(Txt, Bytes)>> {
    let mut version = Seq::new(alloc);
    for (path, text) in files {
        version.push((
            Txt::from_str(alloc, path)?,
            Bytes::from_slice(alloc, text.as_bytes())?,
        ))?;
    }
    Ok(version)
}

/// A tree of two versions, whose calls with these numbers fail.
fn two_versions(alloc: Global, failing: &[u64]) -> Mem<MemTree> {
    let mut versions = Seq::new(alloc);
    versions.push(version(
        alloc,
        &[
            ("b.go", "1"),
            ("x/vendor/a.go", "2"),
            ("a/c.go", "3"),
            ("a.go", "4"),
            ("b.go", "5"),
            ("b.txt", "6"),
        ],
    )?)?;
    versions.push(version(alloc, &[("z.go", "7")])?)?;
    MemTree::new(alloc, versions, Vec::from_slice(alloc, failing)?)
}

#[test]
fn trees_in_memory(rt: HostRuntime) -> Result<(), Fail> {
    let alloc = rt.alloc();
    let first = "a.go 4;a/c.go 3;b.go 1;";
    for (failing, wanted) in [
        ([0, 0], [first, "z.go 7;", "z.go 7;"]),
        ([1, 0], ["failed", first, "z.go 7;"]),
        ([2, 0], ["failed", "z.go 7;", "z.go 7;"]),
        ([4, 8], ["a.go 4;a/c.go -;b.go 1;", "z.go -;", "z.go 7;"]),
        ([6, 0], [first, "failed", "z.go 7;"]),
        ([7, 0], [first, "failed", "z.go 7;"]),
    ] {
        let mut tree = two_versions(alloc, failing.as_slice())?;
        for text in wanted {
            assert!(rt;
                shown(alloc, &mut tree)?.as_str() == text,
                "failing {failing:?}"
            );
        }
    }
    let mut empty = MemTree::new(alloc, Seq::new(alloc), Vec::new(alloc))?;
    assert!(rt; shown(alloc, &mut empty)?.as_str() == "");
    Ok(())
}

/// Goes to an empty folder of a test's own, among what the build makes.
fn enter_folder(rt: &HostRuntime, folder: &str) -> io::Result<()> {
    if fs::exists(rt, folder)? {
        fs::remove_dir_all(rt, folder)?;
    }
    fs::create_dir_all(rt, folder)?;
    env::set_current_dir(rt, folder)
}

/// Goes back from a test's own folder, and removes it.
fn leave_folder(rt: &HostRuntime, folder: &str) -> io::Result<()> {
    env::set_current_dir(rt, "../../..")?;
    fs::remove_dir_all(rt, folder)
}

#[test]
fn trees_in_folders(rt: HostRuntime) -> Result<(), Fail> {
    let alloc = rt.alloc();
    enter_folder(&rt, "out/tests/trees_in_folders")?;
    for folder in [
        "tree/a/b",
        "tree/vendor",
        "tree/testdata",
        "tree/.x",
        "tree/_x",
        "tree/d.go",
    ] {
        fs::create_dir_all(&rt, folder)?;
    }
    for (path, text) in [
        ("tree/b.go", "1"),
        ("tree/a/b/c.go", "2"),
        ("tree/a.go", "3"),
        ("tree/a/c.txt", "4"),
        ("tree/a/.c.go", "5"),
        ("tree/vendor/a.go", "6"),
        ("tree/testdata/a.go", "7"),
        ("tree/.x/a.go", "8"),
        ("tree/_x/a.go", "9"),
        ("tree/d.go/e.go", "10"),
    ] {
        fs::write(&rt, path, text)?;
    }
    symlink(&rt, "b.go", "tree/l.go")?;
    symlink(&rt, "a", "tree/m.go")?;
    symlink(&rt, "a", "tree/n")?;
    // Its first byte can't be read.
    symlink(&rt, "/proc/self/mem", "tree/o.go")?;
    symlink(&rt, "missing", "tree/p.go")?;
    // Nobody may open it for reading.
    symlink(&rt, "/proc/sys/vm/compact_memory", "tree/q.go")?;
    symlink(&rt, "/dev/null", "tree/r.go")?;
    let mut tree = FsTree::new(rt.clone()?, String::from_str(alloc, "tree")?);
    let wanted = "a.go 3;a/b/c.go 2;b.go 1;d.go/e.go 10;l.go 1;m.go -;o.go -;p.go -;q.go -;r.go -;";
    assert!(rt; shown(alloc, &mut tree)?.as_str() == wanted);

    let mut missing = FsTree::new(rt.clone()?, String::from_str(alloc, "no/tree")?);
    assert!(rt; shown(alloc, &mut missing)?.as_str() == "failed");
    leave_folder(&rt, "out/tests/trees_in_folders")?;
    Ok(())
}

#[test]
fn large_files(rt: HostRuntime) -> Result<(), Fail> {
    let alloc = rt.alloc();
    enter_folder(&rt, "out/tests/large_files")?;
    fs::create_dir(&rt, "large")?;
    for (path, length) in [("large/a.go", 4_194_304), ("large/b.go", 4_194_305)] {
        fs::write(&rt, path, vec![in alloc; b' '; length]?)?;
    }
    let mut tree = FsTree::new(rt.clone()?, String::from_str(alloc, "large")?);
    let a = tree.read(alloc, "a.go").ok().ok_or("a.go can't be read")?;
    assert!(rt; matches!(&a, Entry::Bytes(bytes) if bytes.as_slice().len() == 4_194_304));
    let b = tree.read(alloc, "b.go").ok().ok_or("b.go can't be read")?;
    assert!(rt; matches!(&b, Entry::Large));
    leave_folder(&rt, "out/tests/large_files")?;
    Ok(())
}

/// A reader that a signal interrupts, that then gives two bytes, and then ends or fails.
#[derive(Drop)]
struct Breaking {
    calls: u64,
    error: Option<ErrorKind>,
}

impl Read for Breaking {
    fn read(&mut self, buf: &mut [u8]) -> io::Result<usize> {
        self.calls = self.calls.saturating_add(1);
        match (self.calls, self.error) {
            (1, _) => Err(io::Error::from(ErrorKind::Interrupted)),
            (2, _) => Ok(buf.len().min(2)),
            (_, Some(kind)) => Err(io::Error::from(kind)),
            (_, None) => Ok(0),
        }
    }
}

/// How many bytes the entry of a reader has that ends so.
fn length_read(alloc: Global, error: Option<ErrorKind>) -> Result<usize, IoFail> {
    match read_entry_from(alloc, Ok(Breaking { calls: 0, error }), 1)? {
        Entry::Bytes(bytes) => Ok(bytes.as_slice().len()),
        Entry::Large | Entry::Unread => Ok(0),
    }
}

#[test]
fn a_file_that_fails_has_no_entry(rt: HostRuntime) {
    for (error, wanted) in [
        (None, Ok(2)),
        (Some(ErrorKind::BrokenPipe), Err(IoFail::Failed)),
        (Some(ErrorKind::OutOfMemory), Err(IoFail::NoMemory)),
    ] {
        assert!(rt; length_read(rt.alloc(), error) == wanted);
    }
    let kind = Err(io::Error::from(ErrorKind::PermissionDenied));
    assert!(rt; is_folder(kind) == Err(IoFail::Failed));
}

#[test]
fn a_file_that_cannot_be_opened_has_no_entry(rt: HostRuntime) {
    for (kind, wanted) in [
        (ErrorKind::PermissionDenied, IoFail::Failed),
        (ErrorKind::OutOfMemory, IoFail::NoMemory),
    ] {
        let reader: io::Result<Breaking> = Err(io::Error::from(kind));
        let fail = read_entry_from(rt.alloc(), reader, 1).err();
        assert!(rt; fail == Some(wanted));
    }
}

#[test]
fn an_entry_whose_kind_is_unknown_fails_where_paths_may_stand(rt: HostRuntime) {
    let alloc = rt.alloc();
    let mut walk = Walk::new(alloc);
    for (name, wanted) in [
        ("a", Err(IoFail::Failed)),
        ("a.go", Err(IoFail::Failed)),
        (".git", Ok(())),
        ("vendor", Ok(())),
    ] {
        let kind = Err(io::Error::from(ErrorKind::PermissionDenied));
        let mut walk = Walk::new(alloc);
        assert!(rt;
            visit_named(alloc, "x", name, kind, &mut walk) == wanted,
            "{name:?}"
        );
    }
    walk.met = MAX_ENTRIES;
    let kind = Err(io::Error::from(ErrorKind::OutOfMemory));
    let full = visit_named(alloc, "x", ".git", kind, &mut walk);
    assert!(rt; full == Err(IoFail::Failed));
}

/// How many of this many entries a walk meets before one is refused. Their name is skipped.
fn entries_met(alloc: Global, entries: u64) -> u64 {
    let mut walk = Walk::new(alloc);
    for met in 0..entries {
        let kind = Err(io::Error::from(ErrorKind::Other));
        match visit_named(alloc, "", ".git", kind, &mut walk) {
            Ok(()) => {}
            Err(_) => return met,
        }
    }
    entries
}

#[test]
fn a_walk_meets_at_most_4_000_000_entries(rt: HostRuntime) {
    assert!(rt; entries_met(rt.alloc(), 4_000_000) == 4_000_000);
    assert!(rt; entries_met(rt.alloc(), 4_000_001) == 4_000_000);
}

#[test]
fn a_folder_that_cannot_be_read_fails(rt: HostRuntime) {
    for (kind, wanted) in [
        (ErrorKind::PermissionDenied, IoFail::Failed),
        (ErrorKind::OutOfMemory, IoFail::NoMemory),
    ] {
        let entries: io::Result<ReadDir<HostRuntime, Global>> = Err(io::Error::from(kind));
        let mut walk = Walk::new(rt.alloc());
        assert!(rt; visit_all(rt.alloc(), "x", entries, &mut walk) == Err(wanted));
    }
}

#[test]
fn paths_and_names_below_a_root(rt: HostRuntime) -> Result<(), Fail> {
    let alloc = rt.alloc();
    for (folder, name, wanted, whole) in [
        ("", "a.go", "a.go", "src/a.go"),
        ("x/y", "a.go", "x/y/a.go", "src/x/y/a.go"),
    ] {
        let path = join(alloc, folder, name)?;
        assert!(rt; path.as_str() == wanted);
        let path = full_path(alloc, "src", path.as_str())?;
        assert!(rt; path.as_str() == whole);
    }
    assert!(rt; full_path(alloc, "src", "")?.as_str() == "src");
    for (name, wanted) in [
        ("a", true),
        ("a.c", true),
        (".git", false),
        ("_x", false),
        ("vendor", false),
        ("testdata", false),
        ("a\n", false),
    ] {
        assert!(rt; may_lead(name) == wanted, "{name:?}");
    }
    Ok(())
}
