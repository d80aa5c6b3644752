//! The files of one version of a tree in memory.

ghost use Rattle.std.specs.Prelude.{◌≡◌, [], map, IfOk, IfSome, IsSome, MatchOption, OnOk, Some};
ghost use Rattle.std.specs.Prelude.{if◌then◌else◌};
ghost use Rattle.std.specs.Option.{option_copied};
ghost use Rattle.std.specs.Str.{bytes_eq};
ghost use Rattle.tree_io.specs.Path.{Belongs, HasSourcePaths, paths_of};
ghost use Rattle.tree_io.specs.Sources.{bytes_at, entry_of, IsReadable};
ghost use Rattle.tree_io.specs.MemTree.{IsTold};
ghost use Rattle.tree_io.specs.Files.{files_of, files_under_way};

use crate::path::belongs;
use crate::tree::{Entry, MAX_FILE_BYTES};
use plain_data::{Bytes, Mem, Seq, Txt};
use std::alloc::Global;
use std::collections::BTreeMap;

/// The files of a version, by their paths.
pub(crate) type Version = BTreeMap<String, Bytes>;

/// The files that are told of a version: of the paths that belong, each once, with its first bytes.
pub(crate) fn told_files(alloc: Global, mut version: Seq<(Txt, Bytes)>) -> Mem<Version>
    ensures { IfOk result (λ files. IsTold version (files_of files)) }
{
    let mut files = BTreeMap::new(alloc);
    // From the last to the first, so that the first bytes of a path stay.
    while let Some((path, bytes)) = version.pop() {
        put_file(&mut files, path, bytes)?;
    }
    Ok(files)
}

/// Puts bytes at a path, in place of those that it had, unless the path doesn't belong.
fn put_file(files: &mut Version, path: Txt, bytes: Bytes) -> Mem<()>
    requires { HasSourcePaths (files_of files.old) }
    ensures paths { OnOk result (HasSourcePaths (files_of files.new)) }
    ensures put { OnOk result ((wanted : _) → Belongs wanted → bytes_at (files_of files.new) wanted
        ≡ (if bytes_eq wanted path then Some bytes else bytes_at (files_of files.old) wanted)) }
{
    if belongs(path.as_str()) {
        files.insert(path.into_string(), bytes)?;
    }
    Ok(())
}

/// The files of the last of `opened` scans, where there is a scan and a version.
fn under_way(versions: &[Version], opened: usize) -> Option<&Version>
    ensures { MatchOption result (files_under_way versions.now opened ≡ [])
        (λ files. files_of files.now ≡ files_under_way versions.now opened) }
{
    let place = opened.checked_sub(1)?;
    let last = versions.len().checked_sub(1)?;
    versions.get(place.min(last))
}

/// The paths of the last of `opened` scans, rising by their bytes.
pub(crate) fn list_under_way(alloc: Global, versions: &[Version], opened: usize) -> Mem<Seq<Txt>>
    ensures { IfOk result (λ paths. paths ≡ paths_of (files_under_way versions.now opened)) }
{
    match under_way(versions, opened) {
        Some(files) => paths(alloc, files),
        None => Ok(Seq::new(alloc)),
    }
}

/// The paths of the files, rising by their bytes.
fn paths(alloc: Global, files: &Version) -> Mem<Seq<Txt>>
    ensures { IfOk result (λ paths. paths ≡ paths_of (files_of files.now)) }
{
    let mut paths = Seq::new(alloc);
    for path in files.keys() {
        paths.push(Txt::from_str(alloc, path.as_str())?)?;
    }
    Ok(paths)
}

/// What a read at a path of the last of `opened` scans gives.
pub(crate) fn read_under_way(
    alloc: Global,
    versions: &[Version],
    opened: usize,
    path: &str,
) -> Mem<Entry>
    requires { IsSome (bytes_at (files_under_way versions.now opened) path.now) }
    ensures told { IfOk result (λ entry.
        IfSome (bytes_at (files_under_way versions.now opened) path.now)
        (λ bytes. entry ≡ entry_of bytes)) }
    ensures readable { IfOk result IsReadable }
{
    let bytes = find_under_way(versions, opened, path).unwrap();
    entry(alloc, bytes)
}

/// The bytes at a path of the last of `opened` scans.
fn find_under_way<'a>(versions: &'a [Version], opened: usize, path: &str) -> Option<&'a Bytes>
    ensures { option_copied result ≡ bytes_at (files_under_way versions.now opened) path.now }
{
    match under_way(versions, opened) {
        Some(files) => find(files, path),
        None => None,
    }
}

/// The bytes of the file at a path.
fn find<'a>(files: &'a Version, path: &str) -> Option<&'a Bytes>
    ensures { option_copied result ≡ bytes_at (files_of files.now) path.now }
{
    files.get(path)
}

/// What a read of bytes gives: a copy of them, or `Large` where they are too many.
fn entry(alloc: Global, bytes: &Bytes) -> Mem<Entry>
    ensures told { IfOk result (λ entry. entry ≡ entry_of bytes.now) }
    ensures readable { IfOk result IsReadable }
{
    let bytes = bytes.as_slice();
    if bytes.len() > MAX_FILE_BYTES {
        return Ok(Entry::Large);
    }
    Ok(Entry::Bytes(Bytes::from_slice(alloc, bytes)?))
}
