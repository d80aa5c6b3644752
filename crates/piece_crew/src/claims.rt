//! Numbers that are claimed on one word, each once.

ghost use Rattle.std.specs.Prelude.{◌≡◌, ℕ, ◌+◌, ◌<◌, ◌≤◌, [], ◌∷◌, ◌++◌, length, All, min, IfOk, IfSome, IfNone};
ghost use Rattle.piece_crew.specs.Claims.{AreAllSeats, AreMade, FoundPast, HasEnded, IsEachBelow, IsOpen, claims_of, with_claim};
ghost use Rattle.piece_crew.specs.Rule.{seat_of};
ghost use Rattle.piece_crew.specs.declared.rule.TheConstants.{MAX_TOTAL, MAX_WORKERS};

use crate::group::SeatGroup;
use plain_data::{Mem, Seq};
use std::alloc::Global;
use std::marker::Model;

/// A seat at a claim word, seen by contracts as what its steps found there.
#[derive(Drop)]
pub struct ClaimSeat {
    group: SeatGroup,
}

impl Model for ClaimSeat {
    ghost use Rattle.std.specs.Prelude.{◌≡◌};
    ghost use Rattle.piece_crew.specs.Claims.{Seat};
    ghost use Rattle.piece_crew.specs.Rule.{seat_of};

    ghost Value = { Seat };

    ghost view = { λ it. seat_of it.group.seat.table_id it.group.seat.me.0 };

    ghost invariant = { λ it. it.group.seat.me.0.seats ≡ 1 };
}

impl ClaimSeat {
    /// Claims the next number, or gives `None` exactly where this step found the word at the total
    /// or past it. It adds one to the word in a single step, waits for nobody and takes no memory.
    pub fn claim(&mut self) -> Option<u64>
        requires open { IsOpen self.old }
        ensures claimed { IfSome result (λ number. self.new ≡ with_claim self.old number) }
        ensures below { IfSome result (λ number. number < self.old.word.total) }
        ensures rising { IfSome result
            (λ number. All (λ earlier. earlier < number) self.old.claimed) }
        ensures ended { IfNone result (FoundPast self.old self.new) }

        // What stays, whatever the call gives.
        ensures word { self.new.word ≡ self.old.word }
    {
        self.group.claim()
    }

    fn into_group(self) -> SeatGroup
        ensures one { result.seat.me.0.seats ≡ 1 }
        ensures same { seat_of result.seat.table_id result.seat.me.0 ≡ self }
    {
        let ClaimSeat { group } = self;
        group
    }
}

/// The calls on all the seats at one claim word.
pub struct Claims;

impl Claims {
    /// Makes a claim word for the numbers below a total, and its seats.
    ///
    /// # Errors
    ///
    /// `NoMemory` where an allocation is refused.
    pub fn make(alloc: Global, total: u64, seats: u32) -> Mem<Seq<ClaimSeat>>
        requires total { total ≤ MAX_TOTAL }
        requires some { 1 ≤ seats }
        requires few { seats ≤ MAX_WORKERS }
        ensures { IfOk result (AreMade total seats) }
    {
        let mut rest = SeatGroup::new(alloc, total, u64::from(seats))?;
        let mut all = Vec::with_capacity(alloc, seats as usize)?;
        for _ in 1..seats {
            all.push(ClaimSeat {
                group: rest.split()?,
            })?;
        }
        all.push(ClaimSeat { group: rest })?;
        Ok(Seq::from_vec(all))
    }

    /// Joins all the seats of a claim word, and gives how many numbers they claimed. Their claims
    /// are the numbers below it, each once. It is the total where each seat has had its `None`.
    /// The call takes no memory.
    pub fn close(seats: Seq<ClaimSeat>) -> u64
        requires { AreAllSeats seats }
        ensures claims { IsEachBelow result (claims_of seats) }
        ensures within { All (λ seat. result ≤ seat.word.total) seats }
        ensures total { All HasEnded seats → All (λ seat. result ≡ seat.word.total) seats }
    {
        let mut seats = seats.into_vec();
        let Some(last) = seats.pop() else {
            unreachable!()
        };
        let mut whole = last.into_group();
        while let Some(seat) = seats.pop() {
            whole.join(seat.into_group());
        }
        whole.count()
    }
}
