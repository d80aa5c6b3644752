use piece_crew::{Claims, Job, MAX_WORKERS, run_pieces};
use plain_data::{Mem, NoMemory, Seq};
use std::alloc::Global;
use std::sync::atomic::AtomicU64;
use std::sync::atomic::Ordering::SeqCst;
use std::test::Fail;
use std::thread;

#[test]
fn two_seats_claim_three_numbers(rt: HostRuntime) -> Result<(), Fail> {
    let mut seats = Claims::make(rt.alloc(), 3, 2)?;
    let (Some(mut b), Some(mut a)) = (seats.pop(), seats.pop()) else {
        panic!(rt; "two seats were made")
    };
    assert!(rt; a.claim() == Some(0));
    assert!(rt; b.claim() == Some(1));
    assert!(rt; a.claim() == Some(2));
    assert!(rt; b.claim() == None);
    assert!(rt; a.claim() == None);
    seats.push(a)?;
    seats.push(b)?;
    assert!(rt; Claims::close(seats) == 3);
    Ok(())
}

#[test]
fn numbers_that_nobody_claimed_are_not_counted(rt: HostRuntime) -> Result<(), Fail> {
    let mut seats = Claims::make(rt.alloc(), 3, 1)?;
    let Some(mut only) = seats.pop() else {
        panic!(rt; "a seat was made")
    };
    assert!(rt; only.claim() == Some(0));
    seats.push(only)?;
    assert!(rt; Claims::close(seats) == 1);
    Ok(())
}

// Each job gives three times its number, and one more.
#[derive(Drop)]
struct Triples {
    count: u32,
}

impl Job for Triples {
    type Out = u64;

    ghost use Rattle.std.specs.Prelude.{◌≡◌, ◌+◌, ◌*◌};

    ghost jobs = { λ it. it.count };

    ghost gives = { λ it number output. output ≡ 3 * number + 1 };

    fn count(&self) -> u32 {
        self.count
    }

    fn work(&self, _: Global, number: u32) -> Mem<u64> {
        Ok(3 * u64::from(number) + 1)
    }
}

#[test]
fn outputs_stand_in_the_order_of_the_jobs(rt: HostRuntime) -> Result<(), Fail> {
    let most = MAX_WORKERS;
    for (count, workers) in [(0, 1), (0, most), (1, 1), (1, 4), (10, most), (100_000, 4)] {
        assert!(rt; 1 <= workers && workers <= MAX_WORKERS);
        let outputs = run_pieces(&rt, rt.alloc(), &Triples { count }, workers)?;
        assert!(rt; outputs.len() == count as usize);
        for (number, output) in (0..count).zip(outputs.as_slice()) {
            assert!(rt; *output == 3 * u64::from(number) + 1);
        }
    }
    Ok(())
}

// Four jobs, of which one waits until the other three have ended. Each gives its number, and one
// that waits too long gives another.
#[derive(Drop)]
struct Waiting {
    waits: u32,
    ended: AtomicU64,
}

const TURNS: u32 = 20_000_000;

impl Job for Waiting {
    type Out = u32;

    ghost jobs = { λ _. 4 };

    ghost gives = { λ _ _ _. Unit {0} };

    fn count(&self) -> u32 {
        4
    }

    fn work(&self, _: Global, number: u32) -> Mem<u32> {
        if number != self.waits {
            self.ended.fetch_add(1, SeqCst);
            return Ok(number);
        }
        for _ in 0..TURNS {
            if self.ended.load(SeqCst) == 3 {
                return Ok(number);
            }
            thread::yield_now();
        }
        Ok(u32::MAX)
    }
}

// No fixed division of the jobs between two workers, and no order on one thread, ends all four.
#[test]
fn a_job_may_wait_until_all_others_have_ended(rt: HostRuntime) -> Result<(), Fail> {
    for waits in 0..4 {
        let all = Waiting {
            waits,
            ended: AtomicU64::new(0),
        };
        let outputs = run_pieces(&rt, rt.alloc(), &all, 2)?;
        assert!(rt; outputs.as_slice() == [0, 1, 2, 3].as_slice());
    }
    Ok(())
}

// A hundred jobs, of which one finds no memory.
#[derive(Drop)]
struct Starved {
    number: u32,
}

impl Job for Starved {
    type Out = u32;

    ghost jobs = { λ _. 100 };

    ghost gives = { λ _ _ _. Unit {0} };

    fn count(&self) -> u32 {
        100
    }

    fn work(&self, _: Global, number: u32) -> Mem<u32> {
        if number == self.number {
            Err(NoMemory)
        } else {
            Ok(number)
        }
    }
}

#[test]
fn a_job_without_memory_ends_the_call(rt: HostRuntime) {
    for (number, workers) in [(0, 1), (99, 2), (50, MAX_WORKERS)] {
        assert!(rt; 1 <= workers && workers <= MAX_WORKERS);
        let outputs = run_pieces(&rt, rt.alloc(), &Starved { number }, workers);
        assert!(rt; matches!(outputs, Err(NoMemory)));
    }
}
