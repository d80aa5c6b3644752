//! Grouping files by their folders.

ghost use Rattle.std.specs.Prelude.{◌≡◌, ◌<◌, ◌^◌, length, ◌&&◌, not, All, Contains, IfOk, IfSome};
ghost use Rattle.std.specs.Prelude.{OnOk, List, ℕ, [], filter, map, string_bytes, is_some};
ghost use Rattle.std.specs.BTreeMap.{IsOrdered, get_by_text};
ghost use Rattle.std.specs.List.{list_any, slice_get};
ghost use Rattle.std.specs.Option.{option_copied, option_map, option_map_or};
ghost use Rattle.std.specs.Str.{bytes_eq};
ghost use Rattle.std.specs.String.{string_cmp};
ghost use Rattle.tree_io.specs.Path.{Belongs};
ghost use Rattle.package_group.specs.Groups.{IsGrouping, folder_of, has_name};
ghost use Rattle.package_group.specs.Steps.{ArePlaced, is_beside, package_of, placed_by, placed_of};
ghost use Rattle.package_group.specs.Steps.{seen};

use crate::facts::{FileFact, Grouped, Package};
use crate::folders::{folder_of, import_path};
use crate::names::{has_name, name_of};
use plain_data::{Mem, Seq, Txt};
use std::alloc::Global;
use std::collections::BTreeMap;

/// The packages that files make up: one for each folder. A file whose name is not that of the
/// package in its folder is one of the others.
pub fn group(alloc: Global, files: &[FileFact], prefix: &str) -> Mem<Grouped>
    requires few { length files.now < 2 ^ 32 }
    requires belong { All (λ file. Belongs file.path) files.now }
    ensures { IfOk result (IsGrouping prefix.now files.now) }
{
    let placed = place_files(alloc, files, prefix)?;
    let folders = group_by_path(alloc, placed.as_slice())?;
    let packages = make_packages(alloc, &folders)?;
    let names = name_by_path(alloc, packages.as_slice())?;
    let others = find_others(alloc, placed.as_slice(), &names)?;
    Ok(Grouped { packages, others })
}

/// The files with their places, each with the path of its package.
fn place_files<'a>(
    alloc: Global,
    files: &'a [FileFact],
    prefix: &str,
) -> Mem<Vec<(String, (u32, &'a FileFact))>>
    requires { length files.now < 2 ^ 32 }
    ensures { IfOk result (λ placed. ArePlaced prefix.now files.now placed.items) }
{
    let mut placed = Vec::new(alloc);
    for (place, file) in files.iter().enumerate() {
        placed.push(place_file(alloc, prefix, place, file)?)?;
    }
    Ok(placed)
}

/// A file with its place and the path of its package.
fn place_file<'a>(
    alloc: Global,
    prefix: &str,
    place: usize,
    file: &'a FileFact,
) -> Mem<(String, (u32, &'a FileFact))>
    requires { place < 2 ^ 32 }
    ensures { IfOk result (λ placed. placed_of placed ≡ placed_by prefix.now (place, file.now)) }
{
    let path = import_path(alloc, prefix, folder_of(file.path.as_str()))?;
    let place = place as u32;
    Ok((path, (place, file)))
}

/// The files of each package, by its path.
fn group_by_path<'a>(
    alloc: Global,
    placed: &[(String, (u32, &'a FileFact))],
) -> Mem<BTreeMap<String, Vec<(u32, &'a FileFact)>>>
    ensures members { IfOk result (λ folders. (path : List ℕ)
        → option_map_or (λ members. members.items) (get_by_text folders path) []
        ≡ map (λ p. p.1) (filter (λ p. bytes_eq path (string_bytes p.0)) placed.now)) }
    ensures paths { IfOk result (λ folders. (path : List ℕ)
        → is_some (get_by_text folders path)
        ≡ list_any (λ p. bytes_eq path (string_bytes p.0)) placed.now) }
{
    let mut folders: BTreeMap<String, Vec<(u32, &'a FileFact)>> = BTreeMap::new(alloc);
    for (path, member) in placed {
        folders.entry(path.clone()?)?.or_default().push(*member)?;
    }
    Ok(folders)
}

/// The packages, by the files of each.
fn make_packages(
    alloc: Global,
    folders: &BTreeMap<String, Vec<(u32, &FileFact)>>,
) -> Mem<Seq<Package>>
    ensures ordered { OnOk result (IsOrdered string_cmp folders.now) }
    ensures packages { IfOk result (λ packages. packages
        ≡ map (λ folder. package_of (string_bytes folder.0) (map seen folder.1.items))
        folders.now.entries) }
{
    let mut packages = Seq::new(alloc);
    for (path, members) in folders.iter() {
        packages.push(make_package(alloc, path.as_str(), members.as_slice())?)?;
    }
    Ok(packages)
}

/// The package with a path that files of one folder make up.
fn make_package(alloc: Global, path: &str, members: &[(u32, &FileFact)]) -> Mem<Package>
    ensures { IfOk result (λ made. made ≡ package_of path.now (map seen members.now)) }
{
    let name = name_of(members);
    Ok(Package {
        path: Txt::from_str(alloc, path)?,
        dir: Txt::from_str(alloc, dir_of(members))?,
        name: Txt::from_str(alloc, name)?,
        files: own_files(alloc, members, name)?,
        tests: own_tests(alloc, members, name)?,
    })
}

/// The folder of files that have one folder.
fn dir_of<'a>(members: &'a [(u32, &'a FileFact)]) -> &'a str
    ensures { result.now
        ≡ option_map_or (λ member. folder_of member.1.now.path) (slice_get members.now 0) [] }
{
    match members.first() {
        Some((_, file)) => folder_of(file.path.as_str()),
        None => "",
    }
}

/// The places of the files that have a name and are no test files.
#[tactic(auto, using(std::proofs::lemmas::List::Elements::filter_more))]
fn own_files(alloc: Global, members: &[(u32, &FileFact)], name: &str) -> Mem<Seq<u32>>
    ensures { IfOk result (λ places. places ≡ map (λ member. member.0)
        (filter (λ member. has_name name.now member.1.now && not member.1.now.test) members.now)) }
{
    let mut own = Seq::new(alloc);
    for (place, file) in members {
        if has_name(name, file) && !file.test {
            own.push(*place)?;
        }
    }
    Ok(own)
}

/// The places of the test files that have a name.
#[tactic(auto, using(std::proofs::lemmas::List::Elements::filter_more))]
fn own_tests(alloc: Global, members: &[(u32, &FileFact)], name: &str) -> Mem<Seq<u32>>
    ensures { IfOk result (λ places. places ≡ map (λ member. member.0)
        (filter (λ member. has_name name.now member.1.now && member.1.now.test) members.now)) }
{
    let mut own = Seq::new(alloc);
    for (place, file) in members {
        if has_name(name, file) && file.test {
            own.push(*place)?;
        }
    }
    Ok(own)
}

fn name_by_path(alloc: Global, packages: &[Package]) -> Mem<BTreeMap<String, String>>
    ensures paths { IfOk result (λ names. (path : List ℕ) → is_some (get_by_text names path)
        ≡ list_any (λ p. bytes_eq path p.path) packages.now) }
    ensures names { IfOk result (λ names. (path : List ℕ) → IfSome (get_by_text names path)
        (λ name. Contains {X = List ℕ × List ℕ} (map (λ p. (p.path, p.name)) packages.now)
        (path, string_bytes name))) }
{
    let mut names = BTreeMap::new(alloc);
    for package in packages {
        let path = String::from_str(alloc, package.path.as_str())?;
        let name = String::from_str(alloc, package.name.as_str())?;
        names.insert(path, name)?;
    }
    Ok(names)
}

/// Whether a file does not have this name of its package.
fn is_beside(name: Option<&String>, file: &FileFact) -> bool
    ensures { result ≡ is_beside (option_map string_bytes (option_copied name.entry)) file.now }
{
    match name {
        Some(name) => !has_name(name.as_str(), file),
        None => false,
    }
}

/// The places of the files that do not have the name of their package.
#[tactic(auto, using(std::proofs::lemmas::List::Elements::filter_more))]
fn find_others(
    alloc: Global,
    placed: &[(String, (u32, &FileFact))],
    names: &BTreeMap<String, String>,
) -> Mem<Seq<u32>>
    ensures { IfOk result (λ others. others ≡ map (λ p. p.1.0)
        (filter (λ p. is_beside (option_map string_bytes (get_by_text names.now (string_bytes p.0)))
        p.1.1.now) placed.now)) }
{
    let mut others = Seq::new(alloc);
    for (path, (place, file)) in placed {
        if is_beside(names.get(path.as_str()), file) {
            others.push(*place)?;
        }
    }
    Ok(others)
}
