//! Laws of the core machine. The functions do nothing: each contract is a law.

ghost use Rattle.std.specs.Prelude.{◌≡◌, ℕ, List, filter};
ghost use Rattle.std.specs.List.{AllPass};
ghost use Rattle.std.specs.List.Sorted.{IsNonDecreasing};
ghost use Rattle.live_core.specs.declared.event.Event.{Event};
ghost use Rattle.live_core.specs.Events.{core_answers, editions_to, is_legal, is_served};
ghost use Rattle.live_core.specs.Trail.{AreEntries, served_from, trail_of};

/// The editions that are served to one connection never fall, whatever the events are.
pub fn connections_never_go_back()
    ensures { (opening connection : ℕ) (events : List Event)
        → IsNonDecreasing (editions_to connection events (core_answers opening events)) }
{}

/// The entries of a reader are those of a run of the core in which each edition's pieces were
/// finished before it was published: on every trail no event is illegal, and each entry is served
/// its own edition.
pub fn trails_are_legal()
    ensures legal { (pieces entries : List ℕ) → AreEntries pieces entries
        → AllPass is_legal (core_answers 1 (trail_of pieces entries)) }
    ensures served { (pieces entries : List ℕ) → AreEntries pieces entries
        → filter is_served (core_answers 1 (trail_of pieces entries)) ≡ served_from 1 entries }
{}
