//! A reader of a history of editions.

ghost use Rattle.std.specs.Prelude.{◌≡◌, ℕ, ◌≤◌, ◌⊎◌, Some, true, false, IsTrue, [], ◌∷◌, ◌++◌, length, IfOk, OnOk, OnErr, ◌||◌};
ghost use Rattle.std.specs.Arc.{arc_value};
ghost use Rattle.left_right.specs.Sides.{view as sight};
ghost use Rattle.publication.specs.View.{EndsWith, GainsEntry, GainsLook, IsView, OnlySees, ShareHistory, StartsWith};
ghost use Rattle.publication.specs.Readers.{Glimpses, IsReader, IsTold, KnowsOpening, NotesEntry, NotesLook, SeesNothing, history_by, view_by};

use crate::chronicle::Token;
use crate::knowledge::{Knowledge, joined};
use crate::rule::{Enters, Glances, Looks, PublicationRule, Sight};
use crate::slot::Slot;
use core::mem::replace_with;
use left_right::reader::Reader;
use plain_data::{Mem, NoMemory};
use std::marker::Model;
use std::sync::Arc;

type SlotReader<E> = Reader<Slot<E>, Sight<E>, PublicationRule>;

/// An edition that a reader was given, and its number in the history, counted from 1.
#[derive(Drop)]
pub struct Entered<E> {
    /// The number of the edition.
    pub number: u64,
    /// The edition, which stays as it is.
    pub edition: Arc<E>,
}

/// What a publisher told, for a reader to learn, seen by contracts as the history then.
#[derive(Drop)]
pub struct Told<E> {
    knowledge: Knowledge<E>,
}

impl<E> Model for Told<E> {
    ghost use Rattle.publication.specs.View.{History};
    ghost use Rattle.publication.specs.Codes.{history_code};
    ghost use Rattle.publication.specs.Readers.{IsTold, history_by};

    ghost Value = { History E };

    ghost coded = { history_code E.code };

    ghost view = { λ told. history_by told.knowledge };

    ghost invariant = { λ told. IsTold told.knowledge };
}

impl<E> Told<E> {
    pub(crate) fn new(knowledge: Knowledge<E>) -> Told<E>
        requires { IsTold knowledge }
        ensures { result ≡ history_by knowledge }
    {
        Told { knowledge }
    }
}

/// One that is given the newest edition at each entry, seen by contracts as its view.
#[derive(Drop)]
pub struct EditionReader<E: Drop> {
    reader: SlotReader<E>,
    seen: Token<E>,
    count: u64,
    knowledge: Knowledge<E>,
}

impl<E: Drop> Model for EditionReader<E> {
    ghost use Rattle.left_right.specs.Sides.{view as sight};
    ghost use Rattle.publication.specs.View.{View};
    ghost use Rattle.publication.specs.Codes.{view_code};
    ghost use Rattle.publication.specs.Readers.{IsReader, view_by};

    ghost Value = { View E };

    ghost coded = { view_code E.code };

    ghost view = { λ reader. view_by (sight reader.reader.place) reader.seen reader.knowledge };

    ghost invariant = { λ reader. IsReader
        (sight reader.reader.place) reader.seen reader.count reader.knowledge };
}

/// The history that was seen at a step, and the number of its editions.
#[derive(Drop)]
struct Sighting<E> {
    seen: Token<E>,
    count: u64,
}

/// An entry that was noted, and what it gives where a further owner of the edition can be had.
#[derive(Drop)]
struct Noted<E> {
    sighting: Sighting<E>,
    entered: Mem<Entered<E>>,
}

fn sighting_of<E>(slot: &Slot<E>) -> Sighting<E>
    ensures seen { result.seen ≡ slot.now.log }
    ensures count { result.count ≡ slot.now.number }
{
    Sighting {
        seen: slot.log.again(),
        count: slot.number,
    }
}

fn edition_of<E>(slot: &Slot<E>) -> Mem<Entered<E>>
    ensures number { IfOk result (λ entered. entered.number ≡ slot.now.number) }
    ensures edition { IfOk result (λ entered. arc_value entered.edition
        ≡ arc_value slot.now.edition) }
{
    Ok(Entered {
        number: slot.number,
        edition: Arc::try_clone(&slot.edition)?,
    })
}

// Enters once. It gives back the reader, and what is known then.
fn enter_once<E: Drop>(
    reader: SlotReader<E>,
    known: Token<E>,
) -> (SlotReader<E>, (Token<E>, Mem<Noted<E>>))
    requires opening { KnowsOpening (sight reader.place) known }
    ensures ok { IfOk result.1.1
        (NotesEntry (sight reader.place) (sight result.0.place) known result.1.0) }
    ensures err { OnErr result.1.1 (SeesNothing (sight reader.place)
        (sight result.0.place) known result.1.0) }
{
    match reader.enter_as::<Enters>() {
        Err(reader) => (reader, (known, Err(NoMemory))),
        Ok(reading) => {
            let slot = reading.get();
            let mut known = known;
            known.learn(&slot.log);
            let noted = Noted {
                sighting: sighting_of(slot),
                entered: edition_of(slot),
            };
            (reading.leave(), (known, Ok(noted)))
        }
    }
}

// Looks once. It gives back the reader, and what is known then.
fn look_once<E: Drop>(
    reader: SlotReader<E>,
    known: Token<E>,
) -> (SlotReader<E>, (Token<E>, Mem<Sighting<E>>))
    requires opening { KnowsOpening (sight reader.place) known }
    ensures ok { IfOk result.1.1
        (NotesLook (sight reader.place) (sight result.0.place) known result.1.0) }
    ensures err { OnErr result.1.1 (SeesNothing (sight reader.place)
        (sight result.0.place) known result.1.0) }
{
    match reader.enter_as::<Looks>() {
        Err(reader) => (reader, (known, Err(NoMemory))),
        Ok(reading) => {
            let slot = reading.get();
            let mut known = known;
            known.learn(&slot.log);
            let sighting = sighting_of(slot);
            (reading.leave(), (known, Ok(sighting)))
        }
    }
}

// Sees once what is published, and notes nothing. It gives back the reader, and what is known then.
fn glance_once<E: Drop>(
    reader: SlotReader<E>,
    known: Token<E>,
    least: u64,
) -> (SlotReader<E>, (Token<E>, Mem<()>))
    requires opening { KnowsOpening (sight reader.place) known }
    ensures glimpses { Glimpses (sight reader.place) (sight result.0.place) known result.1.0 }
    ensures late { OnOk result.1.1 (least ≤ length (sight result.0.place).seen.log) }
{
    match reader.enter_as::<Glances>() {
        Err(reader) => (reader, (known, Err(NoMemory))),
        Ok(reading) => {
            let slot = reading.get();
            let mut known = known;
            known.learn(&slot.log);
            // Never so: what was told is published by then. No clause of `left_right` shows it.
            let is_late = if slot.number < least {
                Err(NoMemory)
            } else {
                Ok(())
            };
            (reading.leave(), (known, is_late))
        }
    }
}

// Enters once through a reference. It gives back what is known then.
fn enter_at<E: Drop>(reader: &mut SlotReader<E>, known: Token<E>) -> (Token<E>, Mem<Noted<E>>)
    requires opening { KnowsOpening (sight reader.old.place) known }
    ensures ok { IfOk result.1
        (NotesEntry (sight reader.old.place) (sight reader.new.place) known result.0) }
    ensures err { OnErr result.1 (SeesNothing (sight reader.old.place)
        (sight reader.new.place) known result.0) }
{
    replace_with(reader, known, |reader, known| enter_once(reader, known))
}

// Looks once through a reference. It gives back what is known then.
fn look_at<E: Drop>(reader: &mut SlotReader<E>, known: Token<E>) -> (Token<E>, Mem<Sighting<E>>)
    requires opening { KnowsOpening (sight reader.old.place) known }
    ensures ok { IfOk result.1
        (NotesLook (sight reader.old.place) (sight reader.new.place) known result.0) }
    ensures err { OnErr result.1 (SeesNothing (sight reader.old.place)
        (sight reader.new.place) known result.0) }
{
    replace_with(reader, known, |reader, known| look_once(reader, known))
}

// Sees what is published where more was told than this reader has seen, so that it has seen no less
// then.
fn catch_up<E: Drop>(
    reader: &mut SlotReader<E>,
    known: Token<E>,
    least: u64,
    is_behind: bool,
) -> (Token<E>, Mem<()>)
    requires opening { KnowsOpening (sight reader.old.place) known }
    requires late { is_behind ≡ false → least ≤ length (sight reader.old.place).seen.log }
    ensures glimpses { Glimpses (sight reader.old.place) (sight reader.new.place) known result.0 }
    ensures late { OnOk result.1 (least ≤ length (sight reader.new.place).seen.log) }
{
    if !is_behind {
        return (known, Ok(()));
    }
    replace_with(
        reader,
        known,
        |reader, known| glance_once(reader, known, least),
    )
}

// Enters once. What is noted is no older than what was told.
fn enter_informed<E: Drop>(
    reader: &mut SlotReader<E>,
    known: Token<E>,
    least: u64,
    is_behind: bool,
) -> (Token<E>, Mem<Noted<E>>)
    requires opening { KnowsOpening (sight reader.old.place) known }
    requires late { is_behind ≡ false → least ≤ length (sight reader.old.place).seen.log }
    ensures ok { IfOk result.1
        (NotesEntry (sight reader.old.place) (sight reader.new.place) known result.0) }
    ensures late { OnOk result.1 (least ≤ length (sight reader.new.place).seen.log) }
    ensures err { OnErr result.1 (Glimpses (sight reader.old.place)
        (sight reader.new.place) known result.0) }
{
    match catch_up(reader, known, least, is_behind) {
        (known, Err(_)) => (known, Err(NoMemory)),
        (known, Ok(())) => enter_at(reader, known),
    }
}

// Looks once. What is seen is no older than what was told.
fn look_informed<E: Drop>(
    reader: &mut SlotReader<E>,
    known: Token<E>,
    least: u64,
    is_behind: bool,
) -> (Token<E>, Mem<Sighting<E>>)
    requires opening { KnowsOpening (sight reader.old.place) known }
    requires late { is_behind ≡ false → least ≤ length (sight reader.old.place).seen.log }
    ensures ok { IfOk result.1
        (NotesLook (sight reader.old.place) (sight reader.new.place) known result.0) }
    ensures late { OnOk result.1 (least ≤ length (sight reader.new.place).seen.log) }
    ensures err { OnErr result.1 (Glimpses (sight reader.old.place)
        (sight reader.new.place) known result.0) }
{
    match catch_up(reader, known, least, is_behind) {
        (known, Err(_)) => (known, Err(NoMemory)),
        (known, Ok(())) => look_at(reader, known),
    }
}

impl<E: Drop> EditionReader<E> {
    // A reader that has seen nothing.
    pub(crate) fn new(
        reader: SlotReader<E>,
        nothing: Token<E>,
        knowledge: Knowledge<E>,
    ) -> EditionReader<E>
        requires nothing { nothing.log ≡ [] }
        requires reader { IsReader (sight reader.place) nothing 0 knowledge }
        ensures { result ≡ view_by (sight reader.place) nothing knowledge }
    {
        EditionReader {
            reader,
            seen: nothing,
            count: 0,
            knowledge,
        }
    }

    /// Gives the newest edition of the history at this step, which waits for nobody. From then on
    /// the reader has seen the history as it was at that step, and its view has one entry more. No
    /// edition is older than one that the reader has seen or was told of.
    ///
    /// # Errors
    ///
    /// `NoMemory` where the entry is refused, where the edition can't have a further owner, or
    /// where what is published is below what was told. The view is then as it was, or, where an
    /// owner was wanting, has gained that one entry, of the newest edition.
    pub fn enter(&mut self) -> Mem<Entered<E>>
        // What the entry gives.
        ensures number { IfOk result (λ entered. entered.number ≡ length self.new.seen) }
        ensures newest { IfOk result (λ entered. EndsWith self.new.seen
            (arc_value entered.edition)) }
        ensures entry { OnOk result (GainsEntry self.old self.new) }
        ensures informed { OnOk result (StartsWith self.new.seen self.old.told) }
        ensures last { OnOk result (IsTrue self.old.closed → self.new.seen ≡ self.old.told) }

        // What stays, whatever the call gives.
        ensures refused { OnErr result ((self.new ≡ self.old) ⊎ (GainsEntry self.old self.new
            × StartsWith self.new.seen self.old.told)) }
        ensures looks { self.new.looks ≡ self.old.looks }
        ensures only_sees { OnlySees self.old self.new }
    {
        let known = self.knowledge.all.again();
        let least = self.knowledge.number;
        let is_behind = self.count < least;
        let (all, noted) = enter_informed(&mut self.reader, known, least, is_behind);
        self.knowledge.all = all;
        let noted = noted?;
        self.seen = noted.sighting.seen;
        self.count = noted.sighting.count;
        noted.entered
    }

    /// Sees the history as it is at this step, which waits for nobody, without an entry: its view
    /// has one look more, of the newest edition at this step, which is the last that it has seen
    /// from then on.
    ///
    /// # Errors
    ///
    /// `NoMemory` where the step is refused, or where what is published is below what was told. The
    /// view is then as it was.
    pub fn look(&mut self) -> Mem<()>
        ensures look { OnOk result (GainsLook self.old self.new) }
        ensures informed { OnOk result (StartsWith self.new.seen self.old.told) }
        ensures last { OnOk result (IsTrue self.old.closed → self.new.seen ≡ self.old.told) }

        // What stays, whatever the call gives.
        ensures refused { OnErr result (self.new ≡ self.old) }
        ensures entries { self.new.entries ≡ self.old.entries }
        ensures only_sees { OnlySees self.old self.new }
    {
        let known = self.knowledge.all.again();
        let least = self.knowledge.number;
        let (all, sighting) = look_informed(&mut self.reader, known, least, self.count < least);
        self.knowledge.all = all;
        let sighting = sighting?;
        self.seen = sighting.seen;
        self.count = sighting.count;
        Ok(())
    }

    /// Learns what the publisher told. From then on each entry is at least as new, and where that
    /// was told for the last time, the reader sees nothing else. It takes no memory.
    pub fn learn(&mut self, told: Told<E>)
        requires opening { told.opening ≡ self.old.opening }

        // What is known then.
        ensures told { StartsWith self.new.told told.editions }
        ensures last { IsTrue told.closed → self.new.told ≡ told.editions }
        ensures closed { self.new.closed ≡ (self.old.closed || told.closed) }

        // What was known stays.
        ensures told_before { StartsWith self.new.told self.old.told }
        ensures last_before { IsTrue self.old.closed → self.new.told ≡ self.old.told }
        ensures one_of { (self.new.told ≡ self.old.told) ⊎ (self.new.told ≡ told.editions) }
        ensures seen { self.new.seen ≡ self.old.seen }
        ensures entries { self.new.entries ≡ self.old.entries }
        ensures looks { self.new.looks ≡ self.old.looks }
        ensures opening { self.new.opening ≡ self.old.opening }
        ensures view { IsView self.new }
    {
        let Told { knowledge } = told;
        self.knowledge = joined(&self.knowledge, &knowledge);
    }

    /// What holds of each view. It does nothing: its contract is the law.
    pub fn view_holds(&self)
        ensures { IsView self.now }
    {
        let _ = &self.knowledge;
    }

    /// What two readers of one opening have seen, and what they were told, begins one history. It
    /// does nothing: its contract is the law.
    pub fn shares_history(&self, other: &EditionReader<E>)
        requires { other.now.opening ≡ self.now.opening }
        ensures { ShareHistory self.now other.now }
    {
        let mut all = self.knowledge.all.again();
        all.learn(&other.knowledge.all);
    }
}
