//! The walk through a real folder.

ghost use Rattle.std.specs.Prelude.{◌≡◌, ◌≢◌, ◌+◌, [], ◌≤◌, ◌<◌, ◌↔◌, All, IfErr, IfOk, IsErrAnd};
ghost use Rattle.std.specs.Prelude.{IsOk, IsOkAnd, IsTrue, MatchResult, OnOk, Err, false, map};
ghost use Rattle.std.specs.Prelude.{string_bytes, vec_len};
ghost use Rattle.std.specs.Fs.{IsDir, dir_entry_name};
ghost use Rattle.plain_data.specs.Causes.{IsFailOf};
ghost use Rattle.tree_io.specs.Path.{Belongs, IsRising, MayLead};
ghost use Rattle.tree_io.specs.Places.{joined};
ghost use Rattle.tree_io.specs.Walks.{Continues, FindsSources, GainsFolder, GainsNothing};
ghost use Rattle.tree_io.specs.Walks.{GainsPath, IsWalk, Meets, MeetsEither, entry_limit};

use crate::path::{belongs, has_path_bytes, is_source_folder};
use crate::place::{full_path, join};
use plain_data::{IoFail, Mem, Seq, Txt};
use std::alloc::Global;
use std::fs::{DirEntry, FileType, Files, ReadDir};
use std::{fs, io};

/// The most entries of folders that one walk meets.
pub const MAX_ENTRIES: usize = 4_000_000;

/// How far a walk has come: the folders that are still to be read, the paths found so far, and how
/// many entries of folders were met.
#[derive(Drop)]
pub struct Walk {
    /// The folders that are still to be read.
    pub folders: Vec<String>,
    /// The paths found so far.
    pub paths: Vec<String>,
    /// How many entries of folders were met.
    pub met: usize,
}

impl Walk {
    /// A walk that has come nowhere.
    pub fn new(alloc: Global) -> Walk
        ensures no_folder { result.folders.items ≡ [] }
        ensures no_path { result.paths.items ≡ [] }
        ensures nothing_met { result.met ≡ 0 }
    {
        Walk {
            folders: Vec::new(alloc),
            paths: Vec::new(alloc),
            met: 0,
        }
    }
}

/// The paths below a folder that belong, strictly rising by their bytes.
pub(crate) fn list_paths<R: Files + AllocGlobal + Clone + Drop>(
    rt: &R,
    alloc: Global,
    root: &str,
) -> Result<Seq<Txt>, IoFail>
    ensures belong { IfOk result (All Belongs) }
    ensures rising { IfOk result IsRising }
{
    let mut paths = find_paths(rt, alloc, root)?;
    paths.sort_unstable();
    paths.dedup();
    Ok(texts(alloc, paths)?)
}

/// The paths below a folder that belong, in the order in which they are found.
fn find_paths<R: Files + AllocGlobal + Clone + Drop>(
    rt: &R,
    alloc: Global,
    root: &str,
) -> Result<Vec<String>, IoFail>
    ensures { IfOk result (λ paths. All (λ path. Belongs (string_bytes path)) paths.items) }
{
    let mut walk = Walk::new(alloc);
    walk.folders.push(String::new(alloc))?;
    while let Some(folder) = walk.folders.pop() {
        walk_folder(rt, alloc, root, folder.as_str(), &mut walk)?;
    }
    Ok(walk.paths)
}

/// Reads one folder below the root.
fn walk_folder<R: Files + AllocGlobal + Clone + Drop>(
    rt: &R,
    alloc: Global,
    root: &str,
    folder: &str,
    walk: &mut Walk,
) -> Result<(), IoFail>
    requires walk { IsWalk walk.old }
    ensures walk { OnOk result (Continues walk.old walk.new) }
{
    let whole = full_path(alloc, root, folder)?;
    visit_all(alloc, folder, fs::read_dir(rt, whole.as_str()), walk)
}

/// Meets the entries of a folder. A folder that can't be read is an error.
///
/// # Errors
///
/// - `Failed` where the folder is an error, an entry or its kind is one, or there are more than
///   [`MAX_ENTRIES`] entries.
/// - `NoMemory` where that error says so, or an allocation is refused.
pub fn visit_all<R: Files + Clone + Drop>(
    alloc: Global,
    folder: &str,
    entries: io::Result<ReadDir<R, Global>>,
    walk: &mut Walk,
) -> Result<(), IoFail>
    requires walk { IsWalk walk.old }
    ensures unread { IfErr entries (λ error. IsErrAnd result (IsFailOf error)) }
    ensures walk { OnOk result (Continues walk.old walk.new) }
{
    for entry in entries? {
        visit(alloc, folder, entry, walk)?;
    }
    Ok(())
}

/// Meets one entry of a folder, which may be an error.
fn visit<R: Files + Drop>(
    alloc: Global,
    folder: &str,
    entry: io::Result<DirEntry<R, Global>>,
    walk: &mut Walk,
) -> Result<(), IoFail>
    requires walk { IsWalk walk.old }
    ensures error { IfErr entry (λ error. IsErrAnd result (IsFailOf error)) }
    ensures full { IsOk entry → walk.old.met ≡ entry_limit → result ≡ Err IoFail.Failed }
    ensures skipped { IfOk entry (λ entry. walk.old.met < entry_limit
        → ¬ MayLead (dir_entry_name entry) → IsOk result × GainsNothing walk.old walk.new) }
    ensures meets { IfOk entry (λ entry. MayLead (dir_entry_name entry)
        → OnOk result (MeetsEither (joined folder.now (dir_entry_name entry))
        walk.old walk.new)) }
    ensures walk { OnOk result (Continues walk.old walk.new) }
{
    let entry = entry?;
    visit_named(alloc, folder, entry.file_name(), entry.file_type(), walk)
}

/// Meets an entry of a folder by its name and its kind, which may be an error. It is skipped
/// where no path that belongs can stand under its name, whatever it is. One entry more than
/// [`MAX_ENTRIES`] is a fault.
///
/// # Errors
///
/// - `Failed` where [`MAX_ENTRIES`] entries were met, or a kind that is asked for is an error.
/// - `NoMemory` where that error says so, or an allocation is refused.
pub fn visit_named(
    alloc: Global,
    folder: &str,
    name: &str,
    kind: io::Result<FileType>,
    walk: &mut Walk,
) -> Result<(), IoFail>
    requires walk { IsWalk walk.old }
    ensures full { walk.old.met ≡ entry_limit → result ≡ Err IoFail.Failed }
    ensures no_kind { walk.old.met < entry_limit → MayLead name.now
        → IfErr kind (λ error. IsErrAnd result (IsFailOf error)) }
    ensures no_fault { walk.old.met < entry_limit → IsOk kind → result ≢ Err IoFail.Failed }
    ensures skipped { walk.old.met < entry_limit → ¬ MayLead name.now
        → IsOk result × GainsNothing walk.old walk.new }
    ensures meets { MayLead name.now → IfOk kind (λ kind.
        OnOk result (Meets (joined folder.now name.now) kind walk.old walk.new)) }
    ensures either { MayLead name.now
        → OnOk result (MeetsEither (joined folder.now name.now) walk.old walk.new) }
    ensures met { OnOk result (walk.new.met ≡ walk.old.met + 1) }
    ensures walk { OnOk result (IsWalk walk.new) }
    ensures folders { OnOk result (vec_len walk.new.folders ≤ vec_len walk.old.folders + 1) }
{
    if walk.met == MAX_ENTRIES {
        return Err(IoFail::Failed);
    }
    walk.met += 1;
    if may_lead(name) {
        let is_folder = is_folder(kind)?;
        meet(join(alloc, folder, name)?, is_folder, walk)?;
    }
    Ok(())
}

/// Whether paths that belong may stand under a name. Other entries are skipped, whatever they
/// are.
pub fn may_lead(name: &str) -> bool
    ensures { IsTrue result ↔ MayLead name.now }
{
    is_source_folder(name) && has_path_bytes(name)
}

/// Whether an entry is a folder, by what the system says of it. A link isn't one.
///
/// # Errors
///
/// - `Failed` where the kind is an error.
/// - `NoMemory` where that error says so.
pub fn is_folder(kind: io::Result<FileType>) -> Result<bool, IoFail>
    ensures { MatchResult kind (λ kind. IsOkAnd result (λ it. IsTrue it ↔ IsDir kind))
        (λ error. IsErrAnd result (IsFailOf error)) }
{
    Ok(kind?.is_dir())
}

/// A folder is walked later, and a path that belongs is found.
fn meet(path: String, is_folder: bool, walk: &mut Walk) -> Mem<()>
    requires belong { FindsSources walk.old }
    ensures folder { IsTrue is_folder
        → OnOk result (GainsFolder (string_bytes path) walk.old walk.new) }
    ensures file { is_folder ≡ false → Belongs (string_bytes path)
        → OnOk result (GainsPath (string_bytes path) walk.old walk.new) }
    ensures other { is_folder ≡ false → ¬ Belongs (string_bytes path)
        → GainsNothing walk.old walk.new }
    ensures either { OnOk result (MeetsEither (string_bytes path) walk.old walk.new) }
    ensures belong { OnOk result (FindsSources walk.new) }
    ensures same_met { walk.new.met ≡ walk.old.met }
    ensures folders { vec_len walk.new.folders ≤ vec_len walk.old.folders + 1 }
{
    if is_folder {
        walk.folders.push(path)?;
    } else if belongs(path.as_str()) {
        walk.paths.push(path)?;
    }
    Ok(())
}

/// Texts of strings, in their order.
fn texts(alloc: Global, strings: Vec<String>) -> Mem<Seq<Txt>>
    ensures { IfOk result (λ texts. texts ≡ map string_bytes strings.items) }
{
    let texts: Vec<Txt> = strings
        .into_iter()
        .map(|s| Txt::from_string(s))
        .collect(alloc)?;
    Ok(Seq::from_vec(texts))
}
