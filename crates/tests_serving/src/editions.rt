ghost use Rattle.std.specs.Prelude.{◌≡◌, false};

use plain_data::NoMemory;
use publication::{EditionReader, MAX_READERS, Publisher, open_editions};
use std::alloc::Global;
use std::sync::{Arc, Wait};
use std::thread::{Threads, for_each_mut, join_mut};

/// The editions of the test with threads: each is its own number.
const LAST: u64 = 1_000;

/// How often each of its readers enters.
const ENTRIES: u64 = 3_000;

// Publishes an edition, and gives its number.
fn publish<R: Wait>(
    rt: &R,
    alloc: Global,
    publisher: &mut Publisher<u32>,
    edition: u32,
) -> Option<u64>
    requires { publisher.old.closed ≡ false }
    ensures opening { publisher.new.opening ≡ publisher.old.opening }
    ensures closed { publisher.new.closed ≡ false }
{
    if publisher.count() == u64::MAX {
        return None;
    }
    let edition = Arc::new(alloc, edition).ok()?;
    publisher.publish(rt, edition).ok()
}

// Enters, and gives the number and the edition.
fn enter(reader: &mut EditionReader<u32>) -> Option<(u64, u32)>
    ensures { reader.new.opening ≡ reader.old.opening }
{
    let entered = reader.enter().ok()?;
    Some((entered.number, *entered.edition))
}

#[test]
fn an_entry_gives_the_newest_edition_at_its_own_step(rt: HostRuntime) {
    let alloc = rt.alloc();
    let first = Arc::new(alloc, 7u32).expect(&rt, "edition 7");
    let (mut publisher, mut readers) = open_editions(&rt, alloc, first, 2).expect(&rt, "open");
    let mut r = readers.pop().expect(&rt, "r");
    let mut s = readers.pop().expect(&rt, "s");
    assert!(rt; enter(&mut r) == Some((1, 7)));
    assert!(rt; publish(&rt, alloc, &mut publisher, 8) == Some(2));
    assert!(rt; enter(&mut s) == Some((2, 8)));
    assert!(rt; enter(&mut r) == Some((2, 8)));
    assert!(rt; publish(&rt, alloc, &mut publisher, 9) == Some(3));
    r.learn(publisher.tell());
    assert!(rt; enter(&mut r) == Some((3, 9)));
    assert!(rt; publisher.count() == 3 && *publisher.latest() == 9);
    publisher.close(&rt);
}

// Publishes an edition as far as there is memory for it, and gives the newest edition of the
// history then with its number, where a reader is given that one. A publication takes no memory, so
// none is refused.
fn publish_and_enter<R: Wait>(
    rt: &R,
    alloc: Global,
    publisher: &mut Publisher<u32>,
    reader: &mut EditionReader<u32>,
    edition: u32,
) -> Option<(u64, u32)>
    requires { publisher.old.closed ≡ false }
    ensures { publisher.new.closed ≡ false }
{
    let before = (publisher.count(), *publisher.latest());
    let expected = match Arc::new(alloc, edition) {
        Ok(made) if before.0 < u64::MAX => {
            publisher.publish(rt, made).ok()?;
            (before.0 + 1, edition)
        }
        _ => before,
    };
    enter(reader).filter(|entered| *entered == expected)
}

// Where the one edition is refused, for which a run lets the allocation fail, the other one is
// published.
#[test]
fn an_edition_that_is_refused_has_no_place_in_the_history(rt: HostRuntime) {
    let alloc = rt.alloc();
    let first = Arc::new(alloc, 7u32).expect(&rt, "edition 7");
    let (mut publisher, mut readers) = open_editions(&rt, alloc, first, 1).expect(&rt, "open");
    let mut r = readers.pop().expect(&rt, "r");
    let second = publish_and_enter(&rt, alloc, &mut publisher, &mut r, 8);
    let third = publish_and_enter(&rt, alloc, &mut publisher, &mut r, 9);
    publisher.close(&rt);
    let outcomes = [
        (Some((2, 8)), Some((3, 9))),
        (Some((1, 7)), Some((2, 9))),
        (Some((2, 8)), Some((2, 8))),
    ];
    assert!(rt; outcomes.contains(&(second, third)));
}

#[test]
fn the_last_that_is_told_stays_the_newest(rt: HostRuntime) {
    let alloc = rt.alloc();
    let first = Arc::new(alloc, 7u32).expect(&rt, "edition 7");
    let (mut publisher, mut readers) = open_editions(&rt, alloc, first, 1).expect(&rt, "open");
    let mut r = readers.pop().expect(&rt, "r");
    assert!(rt; publish(&rt, alloc, &mut publisher, 8) == Some(2));
    r.learn(publisher.tell_last());
    assert!(rt; r.look().is_ok());
    assert!(rt; enter(&mut r) == Some((2, 8)));
    drop(publisher.tell_last());
    assert!(rt; enter(&mut r) == Some((2, 8)));
    publisher.close(&rt);
}

#[test]
fn editions_outlive_their_publisher_with_as_many_readers_as_there_can_be(rt: HostRuntime) {
    let alloc = rt.alloc();
    let first = Arc::new(alloc, 7u32).expect(&rt, "edition 7");
    let (publisher, mut readers) = open_editions(&rt, alloc, first, MAX_READERS).expect(
        &rt, "open",
    );
    let mut editions = Vec::new(alloc);
    for reader in readers.iter_mut() {
        let entered = reader.enter().expect(&rt, "enters");
        editions.push(entered.edition).expect(&rt, "keeps it");
    }
    publisher.close(&rt);
    assert!(rt;
        editions.len() == MAX_READERS as usize && editions.iter().all(|edition| **edition == 7)
    );
    for reader in readers.iter_mut() {
        assert!(rt; matches!(reader.enter(), Err(NoMemory)));
    }
}

#[test]
fn an_edition_that_nobody_has_is_dropped(rt: HostRuntime) {
    let alloc = rt.alloc();
    let kept = Arc::new(alloc, 1u64).expect(&rt, "edition 1");
    let first = Arc::try_clone(&kept).expect(&rt, "another owner");
    let (mut publisher, readers) = open_editions(&rt, alloc, first, 1).expect(&rt, "open");
    assert!(rt; Arc::strong_count(&kept) > 1);
    assert!(rt; publish_up_to(&rt, alloc, &mut publisher, 4) == 4);
    assert!(rt; Arc::strong_count(&kept) == 1);
    drop(readers);
    publisher.close(&rt);
}

// Publishes editions up to this number, as far as memory allows, and gives how many the history
// has then.
fn publish_up_to<R: Wait>(rt: &R, alloc: Global, publisher: &mut Publisher<u64>, last: u64) -> u64
    requires { publisher.old.closed ≡ false }
{
    for _ in 0..last {
        let count = publisher.count();
        if count >= last {
            break;
        }
        let Ok(edition) = Arc::new(alloc, count + 1) else {
            break;
        };
        if publisher.publish(rt, edition).is_err() {
            break;
        }
    }
    publisher.count()
}

// Enters again and again, and gives whether the numbers never fell, and each edition was that with
// its number.
fn numbers_rise(reader: &mut EditionReader<u64>) -> bool {
    let mut newest = 1;
    for _ in 0..ENTRIES {
        let Ok(entered) = reader.enter() else {
            return false;
        };
        if entered.number < newest || *entered.edition != entered.number {
            return false;
        }
        newest = entered.number;
    }
    true
}

// A reader, and whether its numbers rose.
#[derive(Drop)]
struct Watched {
    reader: EditionReader<u64>,
    rose: bool,
}

fn watch_one(watched: &mut Watched) {
    watched.rose = numbers_rise(&mut watched.reader);
}

// Each reader enters in a thread of its own.
fn watch_all<R: Threads + Sync>(rt: &R, watched: &mut Vec<Watched>) {
    let threads = watched.len().max(1);
    for_each_mut(
        rt,
        watched.as_mut_slice(),
        threads,
        &|_, one| watch_one(one),
    );
}

#[test]
fn numbers_rise_for_readers_beside_a_publisher(rt: HostRuntime) {
    let alloc = rt.alloc();
    let first = Arc::new(alloc, 1u64).expect(&rt, "edition 1");
    let (mut publisher, readers) = open_editions(&rt, alloc, first, 3).expect(&rt, "open");
    let mut watched = Vec::new(alloc);
    for reader in readers {
        let one = Watched {
            reader,
            rose: false,
        };
        watched.push(one).expect(&rt, "one more");
    }
    let mut published = 0;
    join_mut(
        &rt,
        &mut ||
            requires { publisher.closed ≡ false }
        { published = publish_up_to(&rt, alloc, &mut publisher, LAST) },
        &mut || watch_all(&rt, &mut watched),
    );
    assert!(rt; published == LAST);
    assert!(rt; watched.iter().all(|one| one.rose));
    publisher.close(&rt);
}
