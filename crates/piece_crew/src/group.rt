//! Seats that one view stands for, and their steps at the claim word.

ghost use Rattle.std.specs.Prelude.{◌≡◌, ℕ, ◌+◌, ◌<◌, ◌≤◌, [], ◌∷◌, ◌++◌, length, All, min, IfOk, IfSome, IfNone, OnErr, OnOk};
ghost use Rattle.std.specs.Arc.{arc_value};
ghost use Rattle.piece_crew.specs.Claims.{IsEachBelow};
ghost use Rattle.piece_crew.specs.Rule.{drew, joined, left, missed, opened, right};
ghost use Rattle.piece_crew.specs.declared.rule.TheConstants.{MAX_TOTAL, MAX_WORKERS};

use crate::rule::{ClaimRule, Drawing, Parting, Reading, Terms, View};
use atomic_table::{Seat, Table};
use plain_data::Mem;
use std::alloc::Global;
use std::sync::Arc;

/// Seats at one claim word.
#[derive(Drop)]
pub(crate) struct SeatGroup {
    table: Arc<Table<(), View, Terms, ClaimRule, Global>>,
    pub(crate) seat: Seat<(), View>,
    pub(crate) total: u64,
    ghost seated: { seat.table_id ≡ (arc_value table).shared.table_id },
    ghost one_word: { (arc_value table).shared.table_id.words ≡ 1 },
    ghost same_total: { seat.me.0.total ≡ total },
    ghost no_slot: { seat.me.1 ≡ [] },
}

impl SeatGroup {
    // A new claim word, and all its seats.
    pub(crate) fn new(alloc: Global, total: u64, seats: u64) -> Mem<SeatGroup>
        requires total { total ≤ MAX_TOTAL }
        requires seats { seats ≤ MAX_WORKERS }
        ensures { IfOk result
            (λ group. group.seat.me.0 ≡ opened (record { total = total; seats = seats })) }
    {
        let terms = Terms { total, seats };
        let (table, seat) = Table::of_words(alloc, &[0], &terms)?;
        let table = Arc::new(alloc, table)?;
        Ok(SeatGroup { table, seat, total })
    }

    // Takes one seat off.
    pub(crate) fn split(&mut self) -> Mem<SeatGroup>
        requires several { 2 ≤ self.old.seat.me.0.seats }
        requires open { self.old.seat.me.0.past ≡ [] }
        ensures left { OnOk result (self.new.seat.me.0 ≡ left self.old.seat.me.0) }
        ensures right { IfOk result (λ one. one.seat.me.0 ≡ right self.old.seat.me.0) }
        ensures id { IfOk result (λ one. one.seat.table_id ≡ self.old.seat.table_id) }
        ensures same_id { self.new.seat.table_id ≡ self.old.seat.table_id }
    {
        let table = Arc::try_clone(&self.table)?;
        let seat = table.shared.split_seat::<Parting>(&mut self.seat);
        Ok(SeatGroup {
            table,
            seat,
            total: self.total,
        })
    }

    // Takes in the seats of another.
    pub(crate) fn join(&mut self, other: SeatGroup)
        requires id { other.seat.table_id ≡ self.old.seat.table_id }
        requires some { 0 < self.old.seat.me.0.seats }
        ensures joined { self.new.seat.me.0 ≡ joined self.old.seat.me.0 other.seat.me.0 }
        ensures same_id { self.new.seat.table_id ≡ self.old.seat.table_id }
    {
        let SeatGroup {
            table: _,
            seat,
            total: _,
        } = other;
        self.table.shared.join_seat::<Parting>(&mut self.seat, seat);
    }

    // Claims the next number, if this step finds one below the total.
    pub(crate) fn claim(&mut self) -> Option<u64>
        requires room { length self.old.seat.me.0.past < self.old.seat.me.0.seats }
        ensures drawn { IfSome result (λ n. self.new.seat.me.0 ≡ drew self.old.seat.me.0 n) }
        ensures below { IfSome result (λ n. n < self.old.seat.me.0.total) }
        ensures rising { IfSome result (λ n. All (λ k. k < n) self.old.seat.me.0.claimed) }
        ensures missed { IfNone result ((n : ℕ) × (self.old.seat.me.0.total ≤ n)
            × (self.new.seat.me.0 ≡ missed self.old.seat.me.0 n)) }
        ensures same_id { self.new.seat.table_id ≡ self.old.seat.table_id }
    {
        let found = self.table.shared.fetch_add::<Drawing>(&mut self.seat, 0, 1);
        if found < self.total {
            Some(found)
        } else {
            None
        }
    }

    // How many numbers were claimed, which a group of all seats knows.
    pub(crate) fn count(&mut self) -> u64
        requires some { 0 < self.old.seat.me.0.seats }
        requires all { self.old.seat.me.0.seats ≡ self.old.seat.me.0.made }
        ensures claimed { IsEachBelow result self.old.seat.me.0.claimed }
        ensures within { result ≤ self.old.seat.me.0.total }
        ensures total { 0 < length self.old.seat.me.0.past → result ≡ self.old.seat.me.0.total }
    {
        let found = self.table.shared.load::<Reading>(&mut self.seat, 0);
        found.min(self.total)
    }
}
