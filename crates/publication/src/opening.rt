//! How a history is opened.

ghost use Rattle.std.specs.Prelude.{◌≡◌, ℕ, ◌<◌, ◌≤◌, ◌^◌, [], ◌∷◌, true, false, length, drop, All, IfOk, vec_len};
ghost use Rattle.std.specs.Arc.{arc_value};
ghost use Rattle.left_right.specs.Sides.{view as sight};
ghost use Rattle.publication.specs.View.{newcomer};
ghost use Rattle.publication.specs.Chronicle.{IsOpen};
ghost use Rattle.publication.specs.Slots.{IsSound, shown};
ghost use Rattle.publication.specs.Readers.{IsOpening, IsTold, opening_by};
ghost use Rattle.publication.specs.declared.opening.TheConstants.{MAX_READERS};

use crate::chronicle::{Token, open_log};
use crate::knowledge::Knowledge;
use crate::publisher::{Publisher, SlotWriter};
use crate::reader::EditionReader;
use crate::rule::{Learning, Opens, Telling};
use crate::slot::Slot;
use left_right::writer::Writer;
use plain_data::{Mem, NoMemory};
use std::alloc::Global;
use std::sync::{Arc, Wait};

/// The most readers of one opening.
pub const MAX_READERS: u32 = 64;

// A slot with the same edition.
fn copy_of<E: Drop>(slot: &Slot<E>) -> Mem<Slot<E>>
    ensures { IfOk result (λ copy. shown copy ≡ shown slot.now) }
{
    Ok(Slot {
        edition: Arc::try_clone(&slot.edition)?,
        number: slot.number,
        log: slot.log.again(),
    })
}

// A writer that has published this slot. Its queue has the memory that later publications need.
fn open_writer<E: Drop, R: Wait>(
    rt: &R,
    alloc: Global,
    first: Slot<E>,
    readers: usize,
) -> Mem<SlotWriter<E>>
    requires readers { (0 < readers) × (readers < 2 ^ 32) }
    requires sound { IsSound first }
    ensures shown { IfOk result (λ writer. shown writer.desk.shown.value ≡ shown first) }
    ensures clean { IfOk result (λ writer. drop writer.behind writer.log.items ≡ []) }
    ensures opened { IfOk result (λ writer. (sight writer.desk.place).opened ≡ true) }
    ensures book { IfOk result (λ writer.
        (sight writer.desk.place).seen.book ≡ writer.desk.shown.value.log.book) }
{
    let second = copy_of(&first)?;
    let third = copy_of(&first)?;
    let mut writer: SlotWriter<E> = Writer::new(alloc, first, second, readers)?;
    match writer.append(third) {
        Err(_) => {
            let _ = writer.take(rt);
            Err(NoMemory)
        }
        Ok(()) => match writer.publish_as::<Opens, R>(rt) {
            (writer, Ok(())) => Ok(writer),
            (writer, Err(_)) => {
                let _ = writer.take(rt);
                Err(NoMemory)
            }
        },
    }
}

// What is known of a history of one edition.
fn known_at_opening<E>(origin: &Token<E>) -> Knowledge<E>
    requires one { length origin.now.log ≡ 1 }
    requires unclosed { IsOpen origin.now.log }
    ensures told { IsTold result }
    ensures is { result ≡ record {
      origin = origin.now;
      told = origin.now;
      all = origin.now;
      number = 1;
      closed = false;
    } }
{
    Knowledge {
        origin: origin.again(),
        told: origin.again(),
        all: origin.again(),
        number: 1,
        closed: false,
    }
}

// One reader more.
fn add_reader<E: Drop>(
    writer: &mut SlotWriter<E>,
    nothing: &Token<E>,
    origin: &Token<E>,
) -> Mem<EditionReader<E>>
    requires opening { IsOpening nothing.now origin.now (sight writer.old.desk.place) }
    ensures shown { writer.new.desk.shown ≡ writer.old.desk.shown }
    ensures pending { drop writer.new.behind writer.new.log.items
        ≡ drop writer.old.behind writer.old.log.items }
    ensures sight { sight writer.new.desk.place ≡ sight writer.old.desk.place }
    ensures reader { IfOk result (λ reader. reader ≡ newcomer (opening_by origin.now)) }
{
    let mut reader = writer.factory().reader()?;
    let note = writer.tell::<Telling>();
    reader.learn::<Learning>(note);
    Ok(EditionReader::new(reader, nothing.again(), known_at_opening(origin)))
}

// This many readers more.
fn add_readers<E: Drop>(
    alloc: Global,
    writer: &mut SlotWriter<E>,
    nothing: &Token<E>,
    origin: &Token<E>,
    readers: u32,
) -> Mem<Vec<EditionReader<E>>>
    requires opening { IsOpening nothing.now origin.now (sight writer.old.desk.place) }
    ensures shown { writer.new.desk.shown ≡ writer.old.desk.shown }
    ensures pending { drop writer.new.behind writer.new.log.items
        ≡ drop writer.old.behind writer.old.log.items }
    ensures count { IfOk result (λ all. vec_len all ≡ readers) }
    ensures readers { IfOk result (λ all. All (λ reader. reader ≡ newcomer
        (opening_by origin.now)) all.items) }
{
    let mut all = Vec::new(alloc);
    for _ in 0..readers {
        all.push(add_reader(writer, nothing, origin)?)?;
    }
    Ok(all)
}

/// Starts a history with its first edition, which has the number 1, and gives its publisher and so
/// many readers. A reader has seen nothing yet, and was told of the history as it is at the
/// opening.
///
/// Where it is refused it may wait for what it made to end. All room that publishing and reading
/// need is made here.
///
/// # Errors
///
/// `NoMemory` where an allocation is refused, a further owner of the edition, or a place for a
/// reader.
pub fn open_editions<E: Drop, R: Wait>(
    rt: &R,
    alloc: Global,
    first: Arc<E>,
    readers: u32,
) -> Mem<(Publisher<E>, Vec<EditionReader<E>>)>
    requires some { 1 ≤ readers }
    requires few { readers ≤ MAX_READERS }
    ensures history { IfOk result (λ opened. opened.0.editions ≡ arc_value first ∷ []) }
    ensures first { IfOk result (λ opened. opened.0.opening.editions ≡ arc_value first ∷ []) }
    ensures unclosed { IfOk result (λ opened. opened.0.closed ≡ false) }
    ensures readers { IfOk result (λ opened. vec_len opened.1 ≡ readers) }
    ensures newcomers { IfOk result (λ opened. All
        (λ reader. reader ≡ newcomer opened.0.opening) opened.1.items) }
{
    let (counter, nothing, log, pen) = open_log(&first)?;
    let slot = Slot {
        edition: first,
        number: 1,
        log: log.again(),
    };
    let mut writer = open_writer(rt, alloc, slot, readers as usize)?;
    match add_readers(alloc, &mut writer, &nothing, &log, readers) {
        Ok(all) => Ok((Publisher::new(writer, counter, log, pen), all)),
        Err(refusal) => {
            let _ = writer.take(rt);
            Err(refusal)
        }
    }
}
