//! A tree in memory.

use crate::files::{Version, list_under_way, read_under_way, told_files};
use crate::tree::{Entry, Tree};
use plain_data::{Bytes, Failed, FaultCount, IoFail, Mem, NumberedCalls, Seq, Txt};
use std::alloc::Global;
use std::marker::Model;

/// A tree in memory that tells its contents, in versions: each scan that is opened finds the next
/// version, and the last one over and over. Its calls are counted over the three methods of
/// [`Tree`], and those whose numbers were given fail. The count stays at the end of a `u64`, and
/// each call there fails.
#[derive(Drop)]
pub struct MemTree {
    versions: Vec<Version>,
    opened: usize,
    calls: NumberedCalls,
    list_faults: FaultCount,
    read_faults: FaultCount,
}

impl Model for MemTree {
    ghost use Rattle.std.specs.Prelude.{map};
    ghost use Rattle.tree_io.specs.MemTree.{State};
    ghost use Rattle.tree_io.specs.Files.{files_of, scans_of, IsKept};

    ghost Value = { State };

    ghost view = { λ tree. record {
      versions = map files_of tree.versions.items;
      scans = scans_of (map files_of tree.versions.items) tree.opened;
      calls = tree.calls;
      list_faults = tree.list_faults;
      read_faults = tree.read_faults;
    } };

    ghost invariant = { λ tree.
        IsKept (map files_of tree.versions.items) tree.opened tree.calls.made };
}

impl MemTree {
    ghost use Rattle.std.specs.Prelude.{◌≡◌, [], IfOk};
    ghost use Rattle.std.specs.List.{AllZip};
    ghost use Rattle.tree_io.specs.MemTree.{IsTold};

    /// A tree that tells of each version the paths that belong, each once and with its first bytes,
    /// and whose calls with the numbers in `failing`, counted from 1, fail. No scan is open yet.
    ///
    /// # Errors
    ///
    /// `NoMemory` where an allocation is refused.
    pub fn new(alloc: Global, versions: Seq<Seq<(Txt, Bytes)>>, failing: Vec<u64>) -> Mem<MemTree>
        ensures told { IfOk result (λ tree. AllZip IsTold versions tree.versions) }
        ensures no_scan { IfOk result (λ tree. tree.scans ≡ []) }
        ensures no_call { IfOk result (λ tree. tree.calls
            ≡ record { made = 0; failing = failing.items }) }
        ensures no_list_fault { IfOk result (λ tree. tree.list_faults ≡ 0) }
        ensures no_read_fault { IfOk result (λ tree. tree.read_faults ≡ 0) }
    {
        let mut told = Vec::new(alloc);
        for version in versions.into_vec() {
            told.push(told_files(alloc, version)?)?;
        }
        Ok(MemTree {
            versions: told,
            opened: 0,
            calls: NumberedCalls::new(failing),
            list_faults: FaultCount::new(),
            read_faults: FaultCount::new(),
        })
    }
}

impl Tree for MemTree {
    ghost use Rattle.std.specs.Prelude.{◌≡◌, ◌↔◌, Some, All, IfOk, IfSome, IsErr, IsErrOf, IsSome};
    ghost use Rattle.std.specs.Prelude.{OnErr, OnOk};
    ghost use Rattle.plain_data.specs.Causes.{HasCause, HasIoCause};
    ghost use Rattle.tree_io.specs.Path.{Belongs, IsRising, paths_of};
    ghost use Rattle.tree_io.specs.Sources.{bytes_at, entry_of, IsReadable};
    ghost use Rattle.tree_io.specs.Scans as scans_told;
    ghost use Rattle.plain_data.specs.Counts.{NextFails};
    ghost use Rattle.tree_io.specs.MemTree.{after_call, opened, list_failed, read_failed};

    ghost scans = { λ tree. Some tree.scans };

    ghost list_faults = { λ tree. tree.list_faults };

    ghost read_faults = { λ tree. tree.read_faults };

    fn open_scan(&mut self) -> Result<(), Failed>
        ensures fails { IsErr result ↔ NextFails self.old.calls }
        ensures ok { OnOk result (self.new ≡ opened self.old) }
        ensures err { OnErr result (self.new ≡ list_failed self.old) }
        ensures opens { OnOk result
            (scans_told.OpensScan (Some self.old.scans) (Some self.new.scans)) }
        ensures cause { HasCause self.old.list_faults self.new.list_faults result }
    {
        if self.calls.next_fails() {
            self.list_faults.add_one();
            return Err(Failed);
        }
        self.opened += 1;
        Ok(())
    }

    fn list(&mut self, alloc: Global) -> Result<Seq<Txt>, IoFail>
        ensures fails { IsErrOf result IoFail.Failed ↔ NextFails self.old.calls }
        ensures ok { OnOk result (self.new ≡ after_call self.old) }
        ensures failed { IsErrOf result IoFail.Failed → self.new ≡ list_failed self.old }
        ensures no_memory { IsErrOf result IoFail.NoMemory → self.new ≡ after_call self.old }
        ensures told { IfOk result (λ paths.
            paths ≡ paths_of (scans_told.under_way self.old.scans)) }
        ensures belong { IfOk result (All Belongs) }
        ensures rising { IfOk result IsRising }
        ensures cause { HasIoCause self.old.list_faults self.new.list_faults result }
    {
        if self.calls.next_fails() {
            self.list_faults.add_one();
            return Err(IoFail::Failed);
        }
        Ok(list_under_way(alloc, &self.versions, self.opened)?)
    }

    fn read(&mut self, alloc: Global, path: &str) -> Result<Entry, IoFail>
        requires { IsSome (bytes_at (scans_told.under_way self.old.scans) path.now) }
        ensures fails { IsErrOf result IoFail.Failed ↔ NextFails self.old.calls }
        ensures ok { OnOk result (self.new ≡ after_call self.old) }
        ensures failed { IsErrOf result IoFail.Failed → self.new ≡ read_failed self.old }
        ensures no_memory { IsErrOf result IoFail.NoMemory → self.new ≡ after_call self.old }
        ensures told { IfOk result (λ entry.
            IfSome (bytes_at (scans_told.under_way self.old.scans) path.now)
            (λ bytes. entry ≡ entry_of bytes)) }
        ensures readable { IfOk result IsReadable }
        ensures cause { HasIoCause self.old.read_faults self.new.read_faults result }
    {
        if self.calls.next_fails() {
            self.read_faults.add_one();
            return Err(IoFail::Failed);
        }
        Ok(read_under_way(alloc, &self.versions, self.opened, path)?)
    }
}
