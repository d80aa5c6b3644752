//! The folders of files, and the paths of their packages.

ghost use Rattle.std.specs.Prelude.{◌≡◌, IfOk, string_bytes};
ghost use Rattle.package_group.specs.Groups.{folder_of, import_path, root_path};

use plain_data::Mem;
use std::alloc::Global;

/// The folder of a file: what stands before the last `/` of its path; the root's is empty.
pub(crate) fn folder_of(path: &str) -> &str
    ensures { result.now ≡ folder_of path.now }
{
    match path.rsplit_once('/') {
        Some((folder, _)) => folder,
        None => "",
    }
}

/// The path of the package in the root: the prefix, and `_` where there isn't one.
fn root_path(prefix: &str) -> &str
    ensures { result.now ≡ root_path prefix.now }
{
    if prefix.is_empty() { "_" } else { prefix }
}

/// The path of the package in a folder: the folder with the prefix and `/` before it.
pub(crate) fn import_path(alloc: Global, prefix: &str, folder: &str) -> Mem<String>
    ensures { IfOk result (λ path. string_bytes path ≡ import_path prefix.now folder.now) }
{
    if folder.is_empty() {
        return Ok(String::from_str(alloc, root_path(prefix))?);
    }
    if prefix.is_empty() {
        return Ok(String::from_str(alloc, folder)?);
    }
    let mut path = String::from_str(alloc, prefix)?;
    path.push_str("/")?;
    path.push_str(folder)?;
    Ok(path)
}
