//! The log of a history, which exists in proofs alone: its rule, and the two steps that it takes.

ghost use Rattle.std.specs.Prelude.{◌≡◌, ℕ, ◌++◌, ◌∷◌, [], length, Some, IfOk};
ghost use Rattle.std.specs.Arc.{arc_value};
ghost use Rattle.publication.specs.Chronicle.{IsOpen, counter_of, place_after};

use logbook::{Gain, Offer, Pen, Plain, Play, Rule, Seen, Start, Word};
use plain_data::{Mem, NoMemory};
use std::sync::Arc;

/// The rule of the log. An entry is an edition, or the closing entry.
pub struct Chronicle;

/// A beginning of the log that was reached.
pub type Token<E> = Seen<Option<E>, u64, Chronicle>;

/// The word with the number of places for entries.
pub type Counter<E> = Word<Option<E>, u64, Chronicle>;

impl<E> Rule<Option<E>, u64> for Chronicle {
    ghost use Rattle.std.specs.Prelude.{[]};
    ghost use base.Fml.{ftrue};
    ghost use Rattle.publication.specs.Chronicle.{IsKept};

    ghost holds = { λ cells log. IsKept cells log };

    ghost first = { [] };

    ghost hinted = { λ n log. Unit {0} };

    ghost shows = { λ log. [] };

    ghost keeps = { λ names log. ftrue };

    ghost moves = { λ ask before after answer. Unit {0} };
}

/// What a step of the log gains next to the entry.
pub struct Nothing;

impl<E> Gain<E, u64> for Nothing {
    ghost use base.Fml.{ftrue};

    ghost after = { λ names about answer. ftrue };
}

struct MakePlace;

impl<E> Play<Option<E>, u64> for MakePlace {
    ghost use Rattle.publication.specs.Chronicle.{MakesPlace};

    ghost then = { MakesPlace };
}

struct AddEntry;

impl<E> Play<Option<E>, u64> for AddEntry {
    ghost use Rattle.publication.specs.Chronicle.{AddsEntry};

    ghost then = { AddsEntry };
}

/// The entry of an edition.
pub struct OfEdition;

impl<E> Plain<Arc<E>, Option<E>, u64> for OfEdition {
    ghost use Rattle.std.specs.Prelude.{Some, None};
    ghost use Rattle.std.specs.Arc.{arc_value};

    ghost ask = { λ edition. Some (arc_value edition) };

    ghost state = { λ edition. None };
}

/// The closing entry.
pub struct OfClosing;

impl<E> Plain<(), Option<E>, u64> for OfClosing {
    ghost use Rattle.std.specs.Prelude.{None};

    ghost ask = { λ _. None };

    ghost state = { λ _. None };
}

// Makes the place of the entry that comes after this many.
pub(crate) fn make_place<E>(counter: &Counter<E>, known: &Token<E>, entries: u64) -> Mem<Pen>
    requires counter { counter.now ≡ counter_of known.now.book }
    ensures book { IfOk result (λ pen. pen.book ≡ known.now.book) }
    ensures place { IfOk result (λ pen. pen.nib ≡ place_after entries) }
{
    if entries >= u64::MAX - 1 {
        return Err(NoMemory);
    }
    let places = entries + 1;
    let mut known = known.again();
    let mut offer: Offer<Option<E>, u64, Chronicle, Nothing> = known.plain::<
        Nothing,
        (),
        OfClosing,
    >(&());
    let mut pen = known.no_pen();
    let found = counter.compare_exchange::<MakePlace, Nothing>(
        places,
        places + 1,
        &mut known,
        &mut offer,
        &mut pen,
    );
    // Never so: the publisher alone makes places. No rule on `logbook` can say so, since a step
    // that makes a place asks for no pen.
    if found != places {
        return Err(NoMemory);
    }
    let _place: Counter<E> = Word::tracked(0, &mut pen);
    Ok(pen)
}

// A new log with its first entry: the word that counts its places, the log before and after that
// entry, and the pen of the next one.
pub(crate) fn open_log<E>(first: &Arc<E>) -> Mem<(Counter<E>, Token<E>, Token<E>, Pen)>
    ensures nothing { IfOk result (λ t. t.1.log ≡ []) }
    ensures log { IfOk result (λ t. t.2.log ≡ Some (arc_value first.now) ∷ []) }
    ensures counter { IfOk result (λ t. t.0 ≡ counter_of t.2.book) }
    ensures book { IfOk result (λ t. t.3.book ≡ t.2.book) }
    ensures place { IfOk result (λ t. t.3.nib ≡ place_after 1) }
{
    let (mut log, mut first_pen, _second_pen) = Seen::open(Start::alone(), 1, 0);
    let nothing = log.again();
    let counter = Word::tracked(1, &mut first_pen);
    let mut pen = make_place(&counter, &log, 0)?;
    let next = make_place(&counter, &log, 1)?;
    add_entry::<E, Arc<E>, OfEdition>(&counter, &mut log, &mut pen, first);
    Ok((counter, nothing, log, next))
}

// Adds an entry to an open log, at the place that the pen is for.
pub(crate) fn add_entry<E, X, M: Plain<X, Option<E>, u64>>(
    counter: &Counter<E>,
    known: &mut Token<E>,
    pen: &mut Pen,
    entry: &X,
)
    requires counter { counter.now ≡ counter_of known.old.book }
    requires book { pen.old.book ≡ known.old.book }
    requires place { pen.old.nib ≡ place_after (length known.old.log) }
    requires open { IsOpen known.old.log }
    ensures book { known.new.book ≡ known.old.book }
    ensures added { known.new.log ≡ known.old.log ++ M.ask entry.now ∷ [] }
{
    let mut offer: Offer<Option<E>, u64, Chronicle, Nothing> = known.plain::<Nothing, X, M>(entry);
    counter.compare_exchange::<AddEntry, Nothing>(0, 0, known, &mut offer, pen);
}
