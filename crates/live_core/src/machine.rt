//! The core machine.

ghost use Rattle.std.specs.Prelude.{◌≡◌, ℕ, ◌+◌, ◌<◌, ◌≤◌, ◌^◌, List, [], false, length, IfOk, OnErr, OnOk};
ghost use Rattle.live_core.specs.Events.{answer_of, core_answers, is_legal, past_after};
ghost use Rattle.live_core.specs.State.{IsAfter, CoreState};
ghost use Rattle.live_core.specs.Steps.{Follows};
ghost use Rattle.live_core.specs.declared.event.Event.{Event};
ghost use Rattle.live_core.specs.declared.event.Event.TheVariants as events;

use crate::draft::Draft;
use crate::event::{Answer, Event, NotLegal};
use plain_data::{Mem, Seq};
use std::alloc::Global;
use std::marker::Model;

/// A core, seen by contracts as the number of its editions, the sources of the newest, and the
/// edition that is being made.
#[derive(Drop)]
pub struct Core {
    alloc: Global,
    editions: u64,
    newest: u64,
    draft: Option<Draft>,
}

impl Model for Core {
    ghost use Rattle.live_core.specs.State.{CoreState};

    ghost Value = { CoreState };

    ghost view = { λ core. record {
      editions = core.editions;
      newest = core.newest;
      draft = core.draft;
    } };
}

impl Core {
    /// A core whose one edition is of these sources, before any event.
    ///
    /// # Errors
    ///
    /// `NoMemory` where an allocation is refused.
    pub fn start(alloc: Global, sources: u64) -> Mem<Core>
        ensures { IfOk result (IsAfter sources []) }
    {
        Ok(Core {
            alloc,
            editions: 1,
            newest: sources,
            draft: None,
        })
    }

    /// Takes an event, and answers it by what happened before: which editions are published, which
    /// scan is under way, and which of its pieces are finished. An event that may not happen
    /// changes nothing.
    ///
    /// A core that took fewer than 2 ^ 64 - 2 events has room for one more edition.
    ///
    /// # Errors
    ///
    /// `NoMemory` where there is no room for a mark for each piece of a scan. The core is then as
    /// it was.
    pub fn step(&mut self, event: &Event) -> Mem<Answer>
        requires { self.old.editions + 1 < 2 ^ 64 }
        ensures answer { (opening : ℕ) (past : List Event) → IsAfter opening past self.old
            → IfOk result (λ answer. answer ≡ answer_of opening past event.now) }
        ensures after { (opening : ℕ) (past : List Event) → IsAfter opening past self.old
            → OnOk result (IsAfter opening (past_after opening past event.now) self.new) }
        ensures illegal { IfOk result (λ answer. is_legal answer ≡ false → self.new ≡ self.old) }
        ensures no_memory { OnErr result (self.new ≡ self.old) }
        ensures editions { self.new.editions ≤ self.old.editions + 1 }
    {
        match *event {
            Event::Scan { sources, pieces } => self.scan(sources, pieces),
            Event::Piece { index, .. } => Ok(self.finish(index)),
            Event::Publish => Ok(self.publish()),
            Event::Enter { request, .. } => Ok(self.enter(request)),
        }
    }

    fn scan(&mut self, sources: u64, pieces: u64) -> Mem<Answer>
        ensures ok { IfOk result (λ answer.
            Follows self.old (events.Scan sources pieces) answer self.new) }
        ensures err { OnErr result (self.new ≡ self.old) }
    {
        if self.draft.is_some() {
            return Ok(Answer::Illegal(NotLegal::ScanUnderWay));
        }
        self.draft = Some(Draft::new(self.alloc, sources, pieces)?);
        Ok(Answer::Done)
    }

    fn finish(&mut self, index: u64) -> Answer
        ensures { (worker : ℕ) → Follows self.old (events.Piece worker index) result self.new }
    {
        match &mut self.draft {
            None => Answer::Illegal(NotLegal::NoScan),
            Some(draft) => match draft.finish(index) {
                Ok(()) => Answer::Done,
                Err(why) => Answer::Illegal(why),
            },
        }
    }

    fn publish(&mut self) -> Answer
        requires { self.old.editions + 1 < 2 ^ 64 }
        ensures { Follows self.old events.Publish result self.new }
    {
        match &self.draft {
            None => return Answer::Illegal(NotLegal::NoScan),
            Some(draft) if !draft.is_whole() => return Answer::Illegal(NotLegal::Unfinished),
            Some(draft) => self.newest = draft.sources(),
        }
        self.draft = None;
        self.editions += 1;
        Answer::Published(self.editions)
    }

    fn enter(&self, request: u64) -> Answer
        ensures { (connection : ℕ)
            → Follows self.now (events.Enter connection request) result self.now }
    {
        Answer::Served {
            edition: self.editions,
            sources: self.newest,
            request,
        }
    }
}

/// The answers of a core to events, one for each, over an opening of these sources.
///
/// # Errors
///
/// `NoMemory` where an allocation is refused.
pub fn run_events(alloc: Global, sources: u64, events: &[Event]) -> Mem<Seq<Answer>>
    requires { length events.now + 1 < 2 ^ 64 }
    ensures { IfOk result (λ answers. answers ≡ core_answers sources events.now) }
{
    let mut core = Core::start(alloc, sources)?;
    let mut answers = Seq::new(alloc);
    for event in events {
        answers.push(core.step(event)?)?;
    }
    Ok(answers)
}
