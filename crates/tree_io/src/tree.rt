//! What a tree of Go files is.

use plain_data::{Bytes, Failed, IoFail, Seq, Txt};
use std::alloc::Global;

/// The most bytes of a file that are kept. A longer one is [`Entry::Large`].
pub const MAX_FILE_BYTES: usize = 4_194_304;

/// What a scan has of a file.
#[derive(Debug, Drop)]
pub enum Entry {
    /// Its bytes.
    Bytes(Bytes),
    /// It has more than [`MAX_FILE_BYTES`] bytes.
    Large,
    /// It could not be read.
    Unread,
}

/// A tree of Go files, which changes between scans. A scan opens with [`Tree::open_scan`]; the tree
/// is then listed, and its paths are read. A tree may tell the contents of the scans that were
/// opened, and contracts then say exactly what is listed and read. It counts its faults, each count
/// up to the end of a `u64`.
pub trait Tree {
    ghost use Rattle.std.specs.Prelude.{◌≡◌, ℕ, List, Option, All, IfOk, OnErr, OnOk};
    ghost use Rattle.plain_data.specs.Causes.{HasCause, HasIoCause};
    ghost use Rattle.tree_io.specs.Path.{Belongs, IsRising};
    ghost use Rattle.tree_io.specs.Sources.{Contents, IsReadable};
    ghost use Rattle.tree_io.specs.Scans.{IsKnown, IsListed, IsReadAs, OpensScan};

    /// The contents of the scans opened so far, where the tree tells them.
    ghost scans: { Self → Option (List Contents) };

    /// How often `open_scan` and `list` have failed.
    ghost list_faults: { Self → ℕ };

    /// How often `read` has failed.
    ghost read_faults: { Self → ℕ };

    /// Opens the next scan.
    ///
    /// # Errors
    ///
    /// `Failed` only where the count of list faults rose by one in this call, or stands at its end.
    /// No scan is opened then.
    fn open_scan(&mut self) -> Result<(), Failed>
        ensures opens { OnOk result (OpensScan (scans self.old) (scans self.new)) }
        ensures same_scans { OnErr result (scans self.new ≡ scans self.old) }
        ensures cause { HasCause (list_faults self.old) (list_faults self.new) result }
        ensures same_read_faults { read_faults self.new ≡ read_faults self.old };

    /// The paths of the scan under way that belong, sorted strictly ascending by their bytes.
    ///
    /// # Errors
    ///
    /// - `Failed` only where the count of list faults rose by one in this call, or stands at its
    ///   end.
    /// - `NoMemory` where an allocation is refused.
    fn list(&mut self, alloc: Global) -> Result<Seq<Txt>, IoFail>
        ensures told { IfOk result (IsListed (scans self.old)) }
        ensures belong { IfOk result (All Belongs) }
        ensures rising { IfOk result IsRising }
        ensures cause { HasIoCause (list_faults self.old) (list_faults self.new) result }
        ensures same_scans { scans self.new ≡ scans self.old }
        ensures same_read_faults { read_faults self.new ≡ read_faults self.old };

    /// The file at a path of the scan under way: its bytes, or `Large` where it has more than
    /// [`MAX_FILE_BYTES`]; never `Unread`.
    ///
    /// # Errors
    ///
    /// - `Failed` only where the count of read faults rose by one in this call, or stands at its
    ///   end.
    /// - `NoMemory` where an allocation is refused.
    fn read(&mut self, alloc: Global, path: &str) -> Result<Entry, IoFail>
        requires { IsKnown (scans self.old) path.now }
        ensures told { IfOk result (IsReadAs (scans self.old) path.now) }
        ensures readable { IfOk result IsReadable }
        ensures cause { HasIoCause (read_faults self.old) (read_faults self.new) result }
        ensures same_scans { scans self.new ≡ scans self.old }
        ensures same_list_faults { list_faults self.new ≡ list_faults self.old };
}
