//! The standard streams of a program. They expose no bytes: here is the edge that a proof trusts,
//! and it decides nothing but what [`settled`] and [`with_progress`] say.

ghost use Rattle.std.specs.Prelude.{◌≡◌, ◌<◌, length, IfOk, None};
ghost use Rattle.std.specs.Io.{ReadsAtMost, WritesAtMost};
ghost use Rattle.std.specs.Io.KnownBytes.{ReadConsumes, WriteAppends};
ghost use Rattle.plain_data.specs.Causes.{HasCause};
ghost use Rattle.link_io.specs.Attempts.{IsAttempt, IsIdle, IsSettled};
ghost use Rattle.link_io.specs.declared.standard.Attempt.TheVariants as attempts;

use crate::sink::Sink;
use crate::source::Source;
use plain_data::{Failed, FaultCount};
use std::io;
use std::io::{ErrorKind, Read, Write};

/// Standard input, as the runtime reads it.
#[derive(Drop)]
pub struct StdSource<R: Input> {
    reader: R::Reader,
    pub(crate) faults: FaultCount,
}

impl<R: Input + Drop> StdSource<R> {
    /// The standard input of a runtime. No read has failed yet. It takes no memory.
    pub fn new(rt: R) -> StdSource<R>
        ensures { ⟦<StdSource<R> as Source>⟧.read_faults result ≡ 0 }
    {
        StdSource {
            reader: rt.reader(),
            faults: FaultCount::new(),
        }
    }
}

impl<R: Input> Source for StdSource<R> {
    ghost remaining = { λ _. None };

    ghost read_faults = { λ source. source.faults };

    /// Reads again if a signal interrupts the read, and counts every other error.
    fn read(&mut self, buf: &mut [u8]) -> Result<usize, Failed> {
        counted(read_from(&mut self.reader, buf), &mut self.faults)
    }
}

/// Standard output, as the runtime prints to it.
#[derive(Drop)]
pub struct StdSink<R: Print> {
    rt: R,
    pub(crate) faults: FaultCount,
}

impl<R: Print> StdSink<R> {
    /// The standard output of a runtime. No write has failed yet. It takes no memory.
    pub fn new(rt: R) -> StdSink<R>
        ensures { ⟦<StdSink<R> as Sink>⟧.write_faults result ≡ 0 }
    {
        StdSink {
            rt,
            faults: FaultCount::new(),
        }
    }
}

impl<R: Print> Sink for StdSink<R> {
    ghost held = { λ _. None };

    ghost write_faults = { λ sink. sink.faults };

    /// Writes again if a signal interrupts the write. It counts every other error, and a write of
    /// no byte of a piece that has some.
    fn write(&mut self, piece: &[u8]) -> Result<usize, Failed> {
        counted(write_to(&mut io::writer(&self.rt), piece), &mut self.faults)
    }
}

/// Returns what a call moved unchanged, and counts a failure.
fn counted(moved: Result<usize, Failed>, faults: &mut FaultCount) -> Result<usize, Failed>
    ensures same { result ≡ moved }
    ensures cause { HasCause faults.old faults.new moved }
{
    if moved.is_err() {
        faults.add_one();
    }
    moved
}

/// What one call of a stream of the standard library came to.
#[derive(Clone, Copy)]
pub(crate) enum Attempt {
    Moved(usize),
    Interrupted,
    Failed,
}

/// An error is a failure unless a signal interrupted the call.
pub(crate) fn attempt_of(came: io::Result<usize>) -> Attempt
    ensures { IsAttempt came result }
{
    match came {
        Ok(count) => Attempt::Moved(count),
        Err(error) if error.kind() == ErrorKind::Interrupted => Attempt::Interrupted,
        Err(_) => Attempt::Failed,
    }
}

/// What an attempt settles. An interrupted call settles nothing: it is made again.
pub(crate) fn settled(attempt: Attempt) -> Option<Result<usize, Failed>>
    ensures { IsSettled attempt result }
{
    match attempt {
        Attempt::Moved(count) => Some(Ok(count)),
        Attempt::Interrupted => None,
        Attempt::Failed => Some(Err(Failed)),
    }
}

/// The attempt of a write. It failed if it moved no byte of a piece that has some.
pub(crate) fn with_progress(attempt: Attempt, piece: &[u8]) -> Attempt
    ensures idle { IsIdle piece.now attempt → result ≡ attempts.Failed }
    ensures other { ¬ (IsIdle piece.now attempt) → result ≡ attempt }
{
    match attempt {
        Attempt::Moved(0) if !piece.is_empty() => Attempt::Failed,
        _ => attempt,
    }
}

/// Reads until a signal doesn't interrupt the read.
pub(crate) fn read_from<R: Read>(reader: &mut R, buf: &mut [u8]) -> Result<usize, Failed>
    ensures count { ReadsAtMost result buf.new }
    ensures bytes { ReadConsumes (R.remaining reader.old) (R.remaining reader.new) result buf.new }
{
    for _ in 0..u64::MAX {
        if let Some(result) = settled(attempt_of(reader.read(buf))) {
            return result;
        }
    }
    Err(Failed)
}

/// Writes until a signal doesn't interrupt the write. A write of no byte of a piece that has some
/// is a failure.
pub(crate) fn write_to<W: Write>(writer: &mut W, piece: &[u8]) -> Result<usize, Failed>
    ensures count { WritesAtMost result piece.now }
    ensures progress { IfOk result (λ n. 0 < length piece.now → 0 < n) }
    ensures bytes { WriteAppends (W.contents writer.old) (W.contents writer.new) result piece.now }
{
    for _ in 0..u64::MAX {
        if let Some(result) = settled(with_progress(attempt_of(writer.write(piece)), piece)) {
            return result;
        }
    }
    Err(Failed)
}
