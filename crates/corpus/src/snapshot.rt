//! A whole scan of a tree, as it goes into a corpus.

ghost use Rattle.std.specs.Prelude.{◌≡◌, ◌<◌, ◌^◌, Some, IfErr, IfOk, OnOk, length, map, position};
ghost use Rattle.std.specs.Prelude.{slice_get};
ghost use Rattle.std.specs.Str.{bytes_eq};
ghost use Rattle.tree_io.specs.Path.{paths_of};
ghost use Rattle.tree_io.specs.Sources.{IsSources};
ghost use Rattle.corpus.specs.Snapshots.{IsPassed, IsSnapshot, IsWithinLimits, bytes_of, size_of};

use go_ast::{Config, Seq, Txt};
use std::marker::Model;
use tree_io::Entry;

/// The most files that a scan may have.
pub const MAX_FILES: u64 = 20_000;

/// The most bytes that the files of a scan may have together.
pub const MAX_SCAN_BYTES: u64 = 134_217_728;

/// Why a scan doesn't go into a corpus.
#[derive(Debug, Drop)]
pub enum TooLarge {
    /// It has this many files, more than [`MAX_FILES`].
    TooManyFiles(u64),
    /// Its files have this many bytes together, more than [`MAX_SCAN_BYTES`].
    TooManyBytes(u64),
    /// An allocation was refused.
    NoMemory,
}

/// A whole scan of a tree within its limits, seen by contracts as a set of sources: the paths of
/// the files, each with what the scan has of it, and the configuration that they are read for. A
/// file's number is its place, counted from 0.
#[derive(Drop)]
pub struct Snapshot {
    config: Config,
    entries: Seq<(Txt, Entry)>,
}

impl Model for Snapshot {
    ghost use Rattle.corpus.specs.Snapshots.{IsSnapshot, SourceSet, source_set};

    ghost Value = { SourceSet };

    ghost view = { λ s. source_set s.config s.entries };

    ghost invariant = { λ s. IsSnapshot (source_set s.config s.entries) };
}

impl Snapshot {
    /// The snapshot of these files, whose paths belong and rise strictly by their bytes. It takes
    /// no memory.
    ///
    /// # Errors
    /// `TooManyFiles` with the number of the files where that is more than [`MAX_FILES`]; else
    /// `TooManyBytes` with the number of the bytes of all files together where that is more than
    /// [`MAX_SCAN_BYTES`]. `NoMemory` never comes.
    pub fn make(config: Config, entries: Seq<(Txt, Entry)>) -> Result<Snapshot, TooLarge>
        requires valid { IsSources entries }
        requires countable { bytes_of entries < 2 ^ 64 }
        ensures config { IfOk result (λ snapshot. snapshot.config ≡ config) }
        ensures entries { IfOk result (λ snapshot. snapshot.entries ≡ entries) }
        ensures within { OnOk result (IsWithinLimits entries) }
        ensures passed { IfErr result (IsPassed entries) }
    {
        let files = entries.len() as u64;
        if files > MAX_FILES {
            return Err(TooLarge::TooManyFiles(files));
        }
        let bytes = byte_count(entries.as_slice());
        if bytes > MAX_SCAN_BYTES {
            return Err(TooLarge::TooManyBytes(bytes));
        }
        Ok(Snapshot { config, entries })
    }

    /// The configuration. It takes no memory.
    pub fn config(&self) -> &Config
        ensures { result.now ≡ self.now.config }
    {
        &self.config
    }

    /// How many files there are. It takes no memory.
    pub fn files(&self) -> u32
        ensures files { result ≡ length self.now.entries }
        ensures valid { IsSnapshot self.now }
    {
        self.entries.len() as u32
    }

    /// The path of the file with a number, which is below [`Snapshot::files`]. It takes no memory.
    pub fn path(&self, number: u32) -> &str
        requires { number < length self.now.entries }
        ensures { slice_get (paths_of self.now.entries) number ≡ Some result.now }
    {
        self.entries.as_slice()[number as usize].0.as_str()
    }

    /// What the scan has of the file with a number, which is below [`Snapshot::files`]. It takes no
    /// memory.
    pub fn entry(&self, number: u32) -> &Entry
        requires { number < length self.now.entries }
        ensures { slice_get (map (λ e. e.1) self.now.entries) number ≡ Some result.now }
    {
        &self.entries.as_slice()[number as usize].1
    }

    /// The number of the file at a path, or `None` where no file has it. It looks by binary
    /// search, and
    /// takes no memory.
    pub fn find_file(&self, path: &str) -> Option<u32>
        ensures { result ≡ position (bytes_eq path.now) (paths_of self.now.entries) }
    {
        match self
            .entries
            .as_slice()
            .binary_search_by(|entry| entry.0.as_str().cmp(path))
        {
            Ok(place) => Some(place as u32),
            Err(_) => None,
        }
    }
}

/// How many bytes a scan keeps of a file. It takes no memory.
pub fn entry_size(entry: &Entry) -> u64
    ensures { result ≡ size_of entry.now }
{
    match entry {
        Entry::Bytes(bytes) => bytes.as_slice().len() as u64,
        Entry::Large | Entry::Unread => 0,
    }
}

/// How many bytes a scan keeps of files together.
fn byte_count(entries: &[(Txt, Entry)]) -> u64
    requires { bytes_of entries.now < 2 ^ 64 }
    ensures { result ≡ bytes_of entries.now }
{
    entries.iter().map(|entry| entry_size(&entry.1)).sum()
}
