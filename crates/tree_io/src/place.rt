//! Where a path below the root stands in the file system.

ghost use Rattle.std.specs.Prelude.{◌≡◌, IfOk, string_bytes};
ghost use Rattle.tree_io.specs.Places.{full, joined};

use plain_data::Mem;
use std::alloc::Global;

/// The path of an entry of a folder below the root, which has the empty path.
///
/// # Errors
///
/// `NoMemory` where an allocation is refused.
pub fn join(alloc: Global, folder: &str, name: &str) -> Mem<String>
    ensures { IfOk result (λ path. string_bytes path ≡ joined folder.now name.now) }
{
    let mut path = String::from_str(alloc, folder)?;
    if !folder.is_empty() {
        path.push('/')?;
    }
    path.push_str(name)?;
    Ok(path)
}

/// The path of a file or a folder below the root, from where the program runs.
///
/// # Errors
///
/// `NoMemory` where an allocation is refused.
pub fn full_path(alloc: Global, root: &str, path: &str) -> Mem<String>
    ensures { IfOk result (λ whole. string_bytes whole ≡ full root.now path.now) }
{
    let mut whole = String::from_str(alloc, root)?;
    if !path.is_empty() {
        whole.push('/')?;
        whole.push_str(path)?;
    }
    Ok(whole)
}
