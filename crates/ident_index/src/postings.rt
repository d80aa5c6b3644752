//! The table of all names with their hits.

ghost use Rattle.std.specs.Prelude.{◌≡◌, ◌≤◌, ◌+◌, ◌-◌, ◌*◌, ◌^◌, All, IfOk, OnOk, length, map};
ghost use Rattle.std.specs.BTreeMap.{IsOrdered};
ghost use Rattle.std.specs.Cmp.Lexicographic.{slice_cmp};
ghost use Rattle.std.specs.List.{sum_by};
ghost use Rattle.std.specs.Ordering.{nat_cmp};
ghost use Rattle.ident_index.specs.Postings.{HasNames, IsTableOf, hits_at, named_of_all};
ghost use Rattle.ident_index.specs.Postings.{source_and_hits};
ghost use Rattle.ident_index.specs.Tables.{posting_of};

use crate::entry::{Entry, Names};
use crate::groups::{Groups, group_hits};
use crate::hit::{Hit, HitFile};
use crate::search::place_of;
use crate::steps::Steps;
use plain_data::{Mem, NoMemory};
use std::alloc::Global;
use std::marker::Model;
use std::sync::ledger::Ledger;

/// All names of some files, sorted, each with its hits: contracts see the list of these.
#[derive(Drop)]
pub struct Postings {
    entries: Vec<Entry>,
    total: u64,
}

impl Model for Postings {
    ghost use Rattle.std.specs.Prelude.{List};
    ghost use Rattle.ident_index.specs.Postings.{Posting};
    ghost use Rattle.ident_index.specs.Tables.{IsLaidOut};

    ghost Value = { List Posting };

    ghost view = { λ p. p.entries.items };

    ghost invariant = { λ p. IsLaidOut p.entries.items p.total };
}

/// The table of gathered hits.
fn lay_out(alloc: Global, groups: Groups) -> Mem<Postings>
    ensures ordered { OnOk result (IsOrdered (λ a b. slice_cmp nat_cmp a.now b.now) groups.entry) }
    ensures laid { IfOk result (λ postings. postings ≡ map posting_of groups.entry.entries) }
{
    let mut entries = Vec::with_capacity(alloc, groups.len())?;
    let mut total: u64 = 0;
    for (name, gathered) in groups {
        let mut hits = gathered;
        hits.shrink_to_fit();
        total = total.checked_add(hits.len() as u64).ok_or(NoMemory)?;
        entries.push(Entry::new(alloc, name, hits)?)?;
    }
    Ok(Postings { entries, total })
}

impl Postings {
    /// The table of the names of all hits of these files.
    ///
    /// The name of a hit is the letters and digits that stand at its offset. Under each name stand
    /// its hits, in the order of the files and of each file's list. The table has each name once
    /// and 16 bytes for each hit. (Go specification, "Identifiers".)
    ///
    /// # Errors
    /// `NoMemory` where an allocation was refused, and where there are 2^64 hits or more, which no
    /// memory holds.
    pub fn build(alloc: Global, files: &[HitFile]) -> Mem<Postings>
        requires { All (λ file. HasNames file.source.now file.hits.now) files.now }
        ensures { IfOk result
            (λ postings. IsTableOf (named_of_all (map source_and_hits files.now)) postings) }
    {
        let groups = group_hits(alloc, files)?;
        lay_out(alloc, groups)
    }

    /// The hits of a name, in their order; none where no hit has it. Each name that the search
    /// looks at is one step. It takes no memory.
    pub fn find<L: Ledger>(&self, name: &str, steps: &mut Steps<L>) -> &[Hit]
        ensures found { result.now ≡ hits_at self.now name.now }
        ensures later { steps.old ≤ steps.new }
        ensures cost { 2 ^ (steps.new - steps.old) ≤ 2 * length self.now + 1 }
    {
        let names = Names::new(self.entries.as_slice());
        match place_of(&names, name.as_bytes(), steps) {
            Some(place) => self.entries[place].hits(),
            None => &[],
        }
    }

    /// How many hits the table has. It takes no memory.
    pub fn total(&self) -> u64
        ensures { result ≡ sum_by (λ p. length p.hits) self.now }
    {
        self.total
    }
}
