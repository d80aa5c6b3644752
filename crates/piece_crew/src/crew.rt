//! Workers, each of which claims jobs and does them until none is left.

ghost use Rattle.std.specs.Prelude.{◌≡◌, ℕ, ◌<◌, ◌≤◌, length, All, IfOk, slice_index_or};
ghost use Rattle.piece_crew.specs.Claims.{fresh};
ghost use Rattle.piece_crew.specs.Jobs.{AreInOrder};
ghost use Rattle.piece_crew.specs.Bundles.{AreWorkedOff, IsWorkedOff};
ghost use Rattle.piece_crew.specs.declared.rule.TheConstants.{MAX_TOTAL, MAX_WORKERS};

use crate::claims::{ClaimSeat, Claims};
use crate::job::Job;
use crate::order::{Bundle, Piece, all_done, empty_places, outputs_of, take_apart};
use plain_data::{Mem, Seq};
use std::alloc::Global;
use std::thread;
use std::thread::Threads;

// Claims jobs and does them, until its seat has had its `None`.
fn work_off<J: Job>(alloc: Global, all: &J, mut seat: ClaimSeat) -> Mem<Bundle<J::Out>>
    requires fresh { seat ≡ fresh seat.word }
    requires total { seat.word.total ≡ J.jobs all.now }
    requires few { J.jobs all.now ≤ MAX_TOTAL }
    ensures { IfOk result (λ bundle. IsWorkedOff (J.gives all.now) seat.word bundle) }
{
    let mut pieces = Vec::new(alloc);
    while let Some(number) = seat.claim() {
        let number = number as u32;
        let output = all.work(alloc, number)?;
        pieces.push(Piece { number, output })?;
    }
    Ok(Bundle { seat, pieces })
}

// What a worker at each seat brings back, each of which may have a thread of its own.
fn work_at_seats<J: Job + Sync, R: Threads + Sync>(
    rt: &R,
    alloc: Global,
    all: &J,
    seats: Vec<ClaimSeat>,
) -> Mem<Vec<Mem<Bundle<J::Out>>>>
where
    J::Out: Send,
    requires fresh { All (λ seat. seat ≡ fresh seat.word) seats.items }
    requires total { All (λ seat. seat.word.total ≡ J.jobs all.now) seats.items }
    requires few { J.jobs all.now ≤ MAX_TOTAL }
    ensures len { IfOk result (λ results. length results.items ≡ length seats.items) }
    ensures each { IfOk result (λ results. (k : ℕ) (r : _) (s : _) → k < length seats.items
        → IfOk (slice_index_or results.items k r)
        (λ bundle. IsWorkedOff (J.gives all.now) (slice_index_or seats.items k s).word bundle)) }
{
    Ok(thread::map_vec(rt, seats, &|seat| work_off(alloc, all, seat))?)
}

// Does all jobs by `workers` workers.
fn work_beside<J: Job + Sync, R: Threads + Sync>(
    rt: &R,
    alloc: Global,
    all: &J,
    workers: u32,
) -> Mem<Vec<Bundle<J::Out>>>
where
    J::Out: Send,
    requires some { 1 ≤ workers }
    requires few { workers ≤ MAX_WORKERS }
    ensures { IfOk result
        (λ bundles. AreWorkedOff (J.gives all.now) (J.jobs all.now) bundles.items) }
{
    let seats = Claims::make(alloc, u64::from(all.count()), workers)?;
    let results = work_at_seats(rt, alloc, all, seats.into_vec())?;
    all_done(alloc, results)
}

/// Does all jobs by `workers` workers, and gives one output for each job, in the order of the jobs,
/// whatever the number of workers and the order of their claims.
///
/// Each worker claims one job after another until none is left, so no worker waits for another.
/// Where no thread can be made the caller does the work. The call waits for nobody but the threads
/// that it joins.
///
/// # Errors
///
/// `NoMemory` where an allocation is refused, or a job gives it. The outputs are then dropped.
pub fn run_pieces<J: Job + Sync, R: Threads + Sync>(
    rt: &R,
    alloc: Global,
    all: &J,
    workers: u32,
) -> Mem<Seq<J::Out>>
where
    J::Out: Send,
    requires some { 1 ≤ workers }
    requires few { workers ≤ MAX_WORKERS }
    ensures count { IfOk result (λ outputs. length outputs ≡ J.jobs all.now) }
    ensures order { IfOk result (λ outputs. AreInOrder (J.gives all.now) outputs) }
{
    let bundles = work_beside(rt, alloc, all, workers)?;
    let mut seats = Vec::with_capacity(alloc, bundles.len())?;
    let mut places = empty_places(alloc, all.count())?;
    take_apart(bundles, &mut seats, &mut places)?;
    // Each seat has had its `None`, so each number was claimed, and each place is taken.
    let _claimed = Claims::close(Seq::from_vec(seats));
    outputs_of(alloc, places)
}
