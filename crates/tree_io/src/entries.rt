//! The entries of a scan, one file after another.

ghost use Rattle.std.specs.Prelude.{◌≡◌, ◌∷◌, [], IfOk, Ok};
ghost use Rattle.plain_data.specs.Causes.{IsCaused};
ghost use Rattle.tree_io.specs.Entries.{IsReadSoFar, IsSmall};
ghost use Rattle.tree_io.specs.Scans.{IsKnown};

use crate::tree::{Entry, Tree};
use plain_data::{IoFail, Mem, NoMemory};
use std::alloc::Global;

/// The entry of a file of the scan under way: `Unread` where the read fails.
///
/// # Errors
///
/// `NoMemory` where an allocation is refused.
pub fn read_entry<T: Tree>(alloc: Global, tree: &mut T, path: &str) -> Mem<Entry>
    requires { IsKnown (T.scans tree.old) path.now }
    ensures read { IfOk result (λ entry. IsReadSoFar (T.scans tree.old) (path.now ∷ [])
        ((path.now, entry) ∷ []) (T.read_faults tree.old) (T.read_faults tree.new)) }
    ensures small { IfOk result IsSmall }
    ensures cause { IsCaused (T.read_faults tree.old) (T.read_faults tree.new)
        (result ≡ Ok Entry.Unread) }
    ensures same_scans { T.scans tree.new ≡ T.scans tree.old }
    ensures same_list_faults { T.list_faults tree.new ≡ T.list_faults tree.old }
{
    match tree.read(alloc, path) {
        Ok(entry) => Ok(entry),
        Err(IoFail::Failed) => Ok(Entry::Unread),
        Err(IoFail::NoMemory) => Err(NoMemory),
    }
}
