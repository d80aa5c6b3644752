//! Names with their hits, as a table keeps them: nothing outside this module sees a name but by
//! [`Names::compare`], which counts each look.

ghost use Rattle.std.specs.Prelude.{◌≡◌, ◌+◌, ◌<◌, IfOk, length, slice_index_or};
ghost use Rattle.std.specs.Cmp.Lexicographic.{slice_cmp};
ghost use Rattle.std.specs.Ordering.{nat_cmp};
ghost use Rattle.ident_index.specs.Postings.{Posting};

use crate::hit::Hit;
use crate::steps::Steps;
use plain_data::Mem;
use std::alloc::Global;
use std::cmp::Ordering;
use std::marker::{Model, PhantomData};
use std::sync::ledger::Ledger;

/// A name with its hits: contracts see the two lists.
#[derive(Drop)]
pub(crate) struct Entry {
    name: Vec<u8>,
    hits: Vec<Hit>,
}

impl Model for Entry {
    ghost use Rattle.ident_index.specs.Postings.{Posting};

    ghost Value = { Posting };

    ghost view = { λ e. record { name = e.name.items; hits = e.hits.items } };
}

impl Entry {
    pub(crate) fn new(alloc: Global, name: &str, hits: Vec<Hit>) -> Mem<Entry>
        ensures { IfOk result (λ entry. entry ≡ record { name = name.now; hits = hits.items }) }
    {
        Ok(Entry {
            name: Vec::from_slice(alloc, name.as_bytes())?,
            hits,
        })
    }

    pub(crate) fn hits(&self) -> &[Hit]
        ensures { result.now ≡ self.now.hits }
    {
        self.hits.as_slice()
    }
}

/// The entries that a search goes through: contracts see their list. It sees no name, and its looks
/// are steps of the ledger that it was made for, and of no other.
#[derive(Drop)]
pub(crate) struct Names<'a, L: Ledger> {
    entries: &'a [Entry],
    ledger: PhantomData<L>,
}

impl<'a, L: Ledger> Model for Names<'a, L> {
    ghost use Rattle.std.specs.Prelude.{List};
    ghost use Rattle.ident_index.specs.Postings.{Posting};

    ghost Value = { List Posting };

    ghost view = { λ n. n.entries.now };
}

impl<'a, L: Ledger> Names<'a, L> {
    pub(crate) fn new(entries: &'a [Entry]) -> Names<'a, L>
        ensures { result ≡ entries.now }
    {
        Names {
            entries,
            ledger: PhantomData,
        }
    }

    pub(crate) fn len(&self) -> usize
        ensures { result ≡ length self.now }
    {
        self.entries.len()
    }

    /// How the name of this place compares to another name. Each call is one step.
    pub(crate) fn compare(&self, place: usize, name: &[u8], steps: &mut Steps<L>) -> Ordering
        requires { place < length self.now }
        ensures compared { (d : Posting)
            → result ≡ slice_cmp nat_cmp (slice_index_or self.now place d).name name.now }
        ensures counted { steps.new ≡ steps.old + 1 }
    {
        let entries = self.entries;
        let entry = &entries[place];
        steps.tick();
        entry.name.as_slice().cmp(name)
    }
}
