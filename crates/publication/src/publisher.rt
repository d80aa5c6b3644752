//! The publisher of a history of editions.

ghost use Rattle.std.specs.Prelude.{◌≡◌, ℕ, ◌+◌, ◌<◌, ◌^◌, ◌++◌, ◌∷◌, [], true, false, length, drop, None, IfOk, OnErr};
ghost use Rattle.std.specs.Arc.{arc_value};
ghost use Rattle.publication.specs.View.{StartsWith, EndsWith};
ghost use Rattle.publication.specs.Chronicle.{IsOpen, counter_of, editions_of, place_after};
ghost use Rattle.publication.specs.Slots.{IsSound, shown};
ghost use Rattle.publication.specs.Readers.{opening_by};
ghost use Rattle.publication.specs.Publishers.{IsPublisher};

use crate::chronicle::{Counter, OfClosing, OfEdition, Token, add_entry, make_place};
use crate::knowledge::Knowledge;
use crate::reader::Told;
use crate::rule::{PublicationRule, Publishes, Sight};
use crate::slot::{Shown, Slot};
use core::mem::replace_with;
use left_right::Absorb;
use left_right::writer::Writer;
use logbook::Pen;
use plain_data::Mem;
use std::marker::Model;
use std::sync::{Arc, Wait};

pub(crate) type SlotWriter<E> = Writer<Slot<E>, Slot<E>, Sight<E>, PublicationRule>;

/// The one that adds editions to a history, seen by contracts as that history. It can't be dropped:
/// whoever opened the editions ends it by [`Publisher::close`].
pub struct Publisher<E: Drop>
where
    Slot<E>: Absorb<Slot<E>, State = Shown<E>>,
{
    writer: SlotWriter<E>,
    counter: Counter<E>,
    log: Token<E>,
    origin: Token<E>,
    pen: Pen,
    closed: bool,
}

impl<E: Drop> Model for Publisher<E>
where
    Slot<E>: Absorb<Slot<E>, State = Shown<E>>,
{
    ghost use Rattle.std.specs.Prelude.{◌≡◌, [], drop};
    ghost use Rattle.publication.specs.View.{History};
    ghost use Rattle.publication.specs.Codes.{history_code};
    ghost use Rattle.publication.specs.Chronicle.{editions_of};
    ghost use Rattle.publication.specs.Readers.{opening_by};
    ghost use Rattle.publication.specs.Publishers.{IsPublisher};

    ghost Value = { History E };

    ghost coded = { history_code E.code };

    ghost view = { λ p. record {
      opening = opening_by p.origin;
      editions = editions_of p.writer.desk.shown.value.log.log;
      closed = p.closed;
    } };

    ghost invariant = { λ p.
        IsPublisher p.writer.desk.shown.value p.counter p.log p.origin p.pen p.closed
        × (drop p.writer.behind p.writer.log.items ≡ []) };
}

// Hands a change to the writer. Where the writer has no room, it tries again.
fn append_change<E: Drop, R: Wait>(rt: &R, writer: SlotWriter<E>, change: Slot<E>) -> SlotWriter<E>
    ensures desk { result.desk ≡ writer.desk }
    ensures pending { drop result.behind result.log.items
        ≡ drop writer.behind writer.log.items ++ change ∷ [] }
{
    let mut writer = writer;
    let mut change = change;
    for _ in rt.forever() {
        match writer.append(change) {
            Ok(()) => return writer,
            Err(back) => change = back,
        }
    }
    unreachable!()
}

// Publishes a change, which is the only one that waits then. Where the count of an edition's owners
// is at its end, it tries again.
fn publish_change<E: Drop, R: Wait>(rt: &R, writer: SlotWriter<E>, change: Slot<E>) -> SlotWriter<E>
    requires clean { drop writer.behind writer.log.items ≡ [] }
    requires sound { IsSound change }
    requires book { change.log.book ≡ writer.desk.shown.value.log.book }
    requires later { StartsWith change.log.log writer.desk.shown.value.log.log }
    ensures shown { shown result.desk.shown.value ≡ shown change }
    ensures clean { drop result.behind result.log.items ≡ [] }
{
    let mut writer = append_change(rt, writer, change);
    for _ in rt.forever() {
        let (back, published) = writer.publish_as::<Publishes, R>(rt);
        writer = back;
        if published.is_ok() {
            return writer;
        }
    }
    unreachable!()
}

// Publishes a change through a reference.
fn publish_at<E: Drop, R: Wait>(rt: &R, writer: &mut SlotWriter<E>, change: Slot<E>)
    requires clean { drop writer.old.behind writer.old.log.items ≡ [] }
    requires sound { IsSound change }
    requires book { change.log.book ≡ writer.old.desk.shown.value.log.book }
    requires later { StartsWith change.log.log writer.old.desk.shown.value.log.log }
    ensures shown { shown writer.new.desk.shown.value ≡ shown change }
    ensures clean { drop writer.new.behind writer.new.log.items ≡ [] }
{
    replace_with(
        writer,
        change,
        |writer, change| (publish_change(rt, writer, change), ()),
    );
}

// Closes the log after what is published, unless it was closed before.
fn close_log<E>(
    counter: &Counter<E>,
    log: &mut Token<E>,
    pen: &mut Pen,
    published: &Token<E>,
    closed: bool,
)
    requires counter { counter.now ≡ counter_of published.now.book }
    requires book { log.old.book ≡ published.now.book }
    requires unclosed { IsOpen published.now.log }
    requires all { closed ≡ false → log.old.log ≡ published.now.log }
    requires pen { closed ≡ false → pen.old.book ≡ published.now.book }
    requires place { closed ≡ false → pen.old.nib ≡ place_after (length published.now.log) }
    requires last { closed ≡ true → log.old.log ≡ published.now.log ++ None ∷ [] }
    ensures book { log.new.book ≡ published.now.book }
    ensures last { log.new.log ≡ published.now.log ++ None ∷ [] }
{
    if !closed {
        add_entry::<E, (), OfClosing>(counter, log, pen, &());
    }
}

impl<E: Drop> Publisher<E> {
    // The publisher of a history that has one edition.
    pub(crate) fn new(
        writer: SlotWriter<E>,
        counter: Counter<E>,
        log: Token<E>,
        pen: Pen,
    ) -> Publisher<E>
        requires publisher { IsPublisher writer.desk.shown.value counter log log pen false }
        requires clean { drop writer.behind writer.log.items ≡ [] }
        ensures { result ≡ record {
          opening = opening_by log;
          editions = editions_of writer.desk.shown.value.log.log;
          closed = false;
        } }
    {
        let origin = log.again();
        Publisher {
            writer,
            counter,
            log,
            origin,
            pen,
            closed: false,
        }
    }

    /// The newest edition of the history. It takes no memory.
    pub fn latest(&self) -> &E
        ensures { EndsWith self.now.editions result.now }
    {
        &*self.writer.published().edition
    }

    /// How many editions the history has, which is the number of the newest. It takes no memory.
    pub fn count(&self) -> u64
        ensures { result ≡ length self.now.editions }
    {
        self.writer.published().number
    }

    /// Tells the history as it is, for readers of this opening to learn. It takes no memory.
    pub fn tell(&self) -> Told<E>
        ensures { result ≡ record self.now { closed = false } }
    {
        let published = self.writer.published();
        Told::new(Knowledge {
            origin: self.origin.again(),
            told: published.log.again(),
            all: published.log.again(),
            number: published.number,
            closed: false,
        })
    }

    /// Tells the history for the last time: no edition can be published from then on. It may be
    /// called again, for further readers, and takes no memory.
    pub fn tell_last(&mut self) -> Told<E>
        ensures told { result ≡ record self.old { closed = true } }
        ensures closed { self.new ≡ record self.old { closed = true } }
    {
        let published = self.writer.published();
        close_log(
            &self.counter,
            &mut self.log,
            &mut self.pen,
            &published.log,
            self.closed,
        );
        self.closed = true;
        Told::new(Knowledge {
            origin: self.origin.again(),
            told: published.log.again(),
            all: self.log.again(),
            number: published.number,
            closed: true,
        })
    }

    /// Adds the edition to the history in one step, and gives its number, which is the new length
    /// of the history. It may wait for readers that are entering.
    ///
    /// # Errors
    ///
    /// `NoMemory` where no place can be made for the edition. That is found before the step that
    /// adds it, so the history is unchanged.
    pub fn publish<R: Wait>(&mut self, rt: &R, next: Arc<E>) -> Mem<u64>
        requires unclosed { self.old.closed ≡ false }
        requires room { length self.old.editions + 1 < 2 ^ 64 }
        ensures history { IfOk result (λ _.
            self.new.editions ≡ self.old.editions ++ arc_value next ∷ []) }
        ensures number { IfOk result (λ number. number ≡ length self.new.editions) }
        ensures unchanged { OnErr result (self.new ≡ self.old) }
        ensures opening { self.new.opening ≡ self.old.opening }
        ensures closed { self.new.closed ≡ false }
    {
        let number = self.writer.published().number + 1;
        let pen = make_place(&self.counter, &self.log, number)?;
        add_entry::<E, Arc<E>, OfEdition>(&self.counter, &mut self.log, &mut self.pen, &next);
        self.pen = pen;
        let change = Slot {
            edition: next,
            number,
            log: self.log.again(),
        };
        publish_at(rt, &mut self.writer, change);
        Ok(number)
    }

    /// Ends the publisher. It may wait for readers that are entering, and takes no memory.
    pub fn close<R: Wait>(self, rt: &R) {
        let Self {
            writer,
            counter: _,
            log: _,
            origin: _,
            pen: _,
            closed: _,
        } = self;
        let _last = writer.take(rt);
    }
}
