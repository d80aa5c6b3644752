//! A tree in a real folder.

use crate::file::read_file;
use crate::tree::{Entry, Tree};
use crate::walk::list_paths;
use plain_data::{Failed, FaultCount, IoFail, Seq, Txt};
use std::alloc::Global;
use std::fs::Files;
use std::marker::Model;

/// A tree in a real folder. It exposes none of its contents, which may change at any time. It goes
/// to the files by the runtime that it keeps.
///
/// Folders are walked whose names don't begin with `.` or `_`, aren't `vendor` or `testdata`, and
/// have no byte below 0x20 or equal to 0x7F. Symbolic links aren't walked. Whatever is no folder
/// and has a path that belongs is listed; a link is read as the file that it leads to.
#[derive(Drop)]
pub struct FsTree<R> {
    rt: R,
    root: String,
    list_faults: FaultCount,
    read_faults: FaultCount,
}

impl<R> Model for FsTree<R> {
    ghost use Rattle.std.specs.Prelude.{string_bytes};
    ghost use Rattle.tree_io.specs.FsTree.{State};

    ghost Value = { State };

    ghost view = { λ tree. record {
      root = string_bytes tree.root;
      list_faults = tree.list_faults;
      read_faults = tree.read_faults;
    } };
}

impl<R> FsTree<R> {
    ghost use Rattle.std.specs.Prelude.{◌≡◌, string_bytes};

    /// The tree in the folder at `root`. The folder isn't looked at before it is listed. It takes
    /// no memory.
    pub fn new(rt: R, root: String) -> FsTree<R>
        ensures root { result.root ≡ string_bytes root }
        ensures no_list_fault { result.list_faults ≡ 0 }
        ensures no_read_fault { result.read_faults ≡ 0 }
    {
        FsTree {
            rt,
            root,
            list_faults: FaultCount::new(),
            read_faults: FaultCount::new(),
        }
    }
}

impl<R: Files + AllocGlobal + Clone + Drop> Tree for FsTree<R> {
    ghost use Rattle.std.specs.Prelude.{◌≡◌, None, All, IfOk, IsErrOf, IsOk, OnOk};
    ghost use Rattle.plain_data.specs.Causes.{HasIoCause};
    ghost use Rattle.tree_io.specs.Path.{Belongs, IsRising};
    ghost use Rattle.tree_io.specs.Sources.{IsReadable};
    ghost use Rattle.tree_io.specs.FsTree.{list_failed, read_failed};

    ghost scans = { λ _. None };

    ghost list_faults = { λ tree. tree.list_faults };

    ghost read_faults = { λ tree. tree.read_faults };

    fn open_scan(&mut self) -> Result<(), Failed>
        ensures opens { IsOk result }
        ensures same { self.new ≡ self.old }
    {
        Ok(())
    }

    fn list(&mut self, alloc: Global) -> Result<Seq<Txt>, IoFail>
        ensures belong { IfOk result (All Belongs) }
        ensures rising { IfOk result IsRising }
        ensures cause { HasIoCause self.old.list_faults self.new.list_faults result }
        ensures ok { OnOk result (self.new ≡ self.old) }
        ensures failed { IsErrOf result IoFail.Failed → self.new ≡ list_failed self.old }
        ensures no_memory { IsErrOf result IoFail.NoMemory → self.new ≡ self.old }
    {
        let listed = list_paths(&self.rt, alloc, self.root.as_str());
        if let Err(IoFail::Failed) = listed {
            self.list_faults.add_one();
        }
        listed
    }

    fn read(&mut self, alloc: Global, path: &str) -> Result<Entry, IoFail>
        ensures readable { IfOk result IsReadable }
        ensures cause { HasIoCause self.old.read_faults self.new.read_faults result }
        ensures ok { OnOk result (self.new ≡ self.old) }
        ensures failed { IsErrOf result IoFail.Failed → self.new ≡ read_failed self.old }
        ensures no_memory { IsErrOf result IoFail.NoMemory → self.new ≡ self.old }
    {
        let entry = read_file(&self.rt, alloc, self.root.as_str(), path);
        if let Err(IoFail::Failed) = entry {
            self.read_faults.add_one();
        }
        entry
    }
}
