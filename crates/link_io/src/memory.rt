//! Sources, sinks and links in memory. They expose their bytes, and which of their calls fail.

ghost use Rattle.std.specs.Prelude.{◌≡◌, ◌+◌, ◌-◌, ◌<◌, ◌≤◌, ◌↔◌, ◌++◌, [], length, take, drop, fold, min, OnErr, IsErr};
ghost use Rattle.plain_data.specs.Causes.{HasCause};
ghost use Rattle.plain_data.specs.Counts.{NextFails, called, one_more};
ghost use Rattle.link_io.specs.Memory.{Reads, Writes, cuts_after, held_of, remaining_of};
ghost use Rattle.link_io.specs.Streams.{ReadsInto, WritesFrom};

use crate::link::Link;
use crate::sink::Sink;
use crate::source::Source;
use plain_data::{Failed, FaultCount, NumberedCalls};
use std::alloc::Global;
use std::marker::Model;

/// A source in memory. Its reads are numbered from 1, up to 2 ^ 64 - 1, where the number stands
/// still.
#[derive(Debug, Drop)]
pub struct MemSource {
    bytes: Vec<u8>,
    position: usize,
    cuts: Vec<u64>,
    calls: NumberedCalls,
    faults: FaultCount,
}

impl Model for MemSource {
    ghost use Rattle.std.specs.Prelude.{◌≤◌, drop, length};
    ghost use Rattle.link_io.specs.Memory.{SourceState, cuts_after};

    ghost Value = { SourceState };

    ghost view = { λ source. record {
      remaining = drop source.position source.bytes.items;
      cuts = cuts_after source.position source.cuts.items;
      calls = source.calls;
      faults = source.faults;
    } };

    ghost invariant = { λ source. source.position ≤ length source.bytes.items };
}

impl MemSource {
    /// A source of these bytes. `cuts` are byte offsets from the start that no read passes, and
    /// `failing` the numbers of the reads that fail; either list may stand in any order. It takes
    /// no memory.
    pub fn new(bytes: Vec<u8>, cuts: Vec<u64>, failing: Vec<u64>) -> MemSource
        ensures { result ≡ record {
          remaining = bytes.items;
          cuts = cuts_after 0 cuts.items;
          calls = record { made = 0; failing = failing.items };
          faults = 0;
        } }
    {
        MemSource {
            bytes,
            position: 0,
            cuts,
            calls: NumberedCalls::new(failing),
            faults: FaultCount::new(),
        }
    }
}

impl Source for MemSource {
    ghost remaining = { remaining_of };

    ghost read_faults = { λ source. source.faults };

    /// Moves the bytes up to the next cut, the end or the end of the buffer, whichever comes first.
    /// It fails if and only if its number is one of those that fail, or 2 ^ 64 - 1. What follows
    /// the bytes in the buffer is unchanged; after a failure the whole buffer is.
    fn read(&mut self, buf: &mut [u8]) -> Result<usize, Failed>
        ensures reads { Reads self.old self.new buf.old buf.new result }
        ensures bytes { ReadsInto (remaining_of self.old) (remaining_of self.new) buf.new result }
        ensures cause { HasCause self.old.faults self.new.faults result }
    {
        count_call(&mut self.calls, &mut self.faults)?;
        let count = move_bytes(&self.bytes, self.position, &self.cuts, buf);
        self.position += count;
        Ok(count)
    }
}

/// A sink in memory. Its writes are numbered from 1, up to 2 ^ 64 - 1, where the number stands
/// still.
#[derive(Debug, Drop)]
pub struct MemSink {
    held: Vec<u8>,
    most: usize,
    calls: NumberedCalls,
    faults: FaultCount,
}

impl Model for MemSink {
    ghost use Rattle.std.specs.Prelude.{◌<◌};
    ghost use Rattle.link_io.specs.Memory.{SinkState};

    ghost Value = { SinkState };

    ghost view = { λ sink. record {
      held = sink.held.items;
      most = sink.most;
      calls = sink.calls;
      faults = sink.faults;
    } };

    ghost invariant = { λ sink. 0 < sink.most };
}

impl MemSink {
    /// An empty sink that takes at most `most` bytes a write. `failing` are the numbers of the
    /// writes that fail, in any order. It takes no memory until it grows.
    pub fn new(alloc: Global, most: usize, failing: Vec<u64>) -> MemSink
        requires { 0 < most }
        ensures { result ≡ record {
          held = [];
          most = most;
          calls = record { made = 0; failing = failing.items };
          faults = 0;
        } }
    {
        MemSink {
            held: Vec::new(alloc),
            most,
            calls: NumberedCalls::new(failing),
            faults: FaultCount::new(),
        }
    }

    /// The bytes that were written, in their order. It takes no memory.
    pub fn held(&self) -> &[u8]
        ensures { result.now ≡ self.now.held }
    {
        self.held.as_slice()
    }
}

impl Sink for MemSink {
    ghost held = { held_of };

    ghost write_faults = { λ sink. sink.faults };

    /// Takes the piece, or of a longer one the first `most` bytes. It fails if its number is one of
    /// those that fail, or 2 ^ 64 - 1; otherwise only if the bytes that are held have to grow and
    /// find no memory, which is a counted fault as well.
    fn write(&mut self, piece: &[u8]) -> Result<usize, Failed>
        ensures writes { Writes self.old self.new piece.now result }
        ensures bytes { WritesFrom (held_of self.old) (held_of self.new) piece.now result }
        ensures cause { HasCause self.old.faults self.new.faults result }
    {
        count_call(&mut self.calls, &mut self.faults)?;
        let count = piece.len().min(self.most);
        if self.held.extend_from_slice(&piece[..count]).is_err() {
            self.faults.add_one();
            return Err(Failed);
        }
        Ok(count)
    }
}

/// A link in memory: the peer's bytes come from a source, and what is written goes to a sink.
#[derive(Debug, Drop)]
pub struct MemLink {
    source: MemSource,
    sink: MemSink,
}

impl Model for MemLink {
    ghost use Rattle.link_io.specs.Memory.{LinkState};

    ghost Value = { LinkState };

    ghost view = { λ link. record { source = link.source; sink = link.sink } };
}

impl MemLink {
    /// A link of these two. It takes no memory.
    pub fn new(source: MemSource, sink: MemSink) -> MemLink
        ensures { result ≡ record { source = source; sink = sink } }
    {
        MemLink { source, sink }
    }

    /// The bytes that were written, in their order. It takes no memory.
    pub fn held(&self) -> &[u8]
        ensures { result.now ≡ self.now.sink.held }
    {
        self.sink.held()
    }
}

impl Source for MemLink {
    ghost remaining = { λ link. remaining_of link.source };

    ghost read_faults = { λ link. link.source.faults };

    ghost beside = { λ link. record {
      bytes = held_of link.sink;
      faults = link.sink.faults;
    } };

    /// Reads from the link's source. Its sink is unchanged.
    fn read(&mut self, buf: &mut [u8]) -> Result<usize, Failed>
        ensures reads { Reads self.old.source self.new.source buf.old buf.new result }
        ensures sink { self.new.sink ≡ self.old.sink }
        ensures bytes { ReadsInto (remaining_of self.old.source) (remaining_of self.new.source)
            buf.new result }
        ensures cause { HasCause self.old.source.faults self.new.source.faults result }
    {
        self.source.read(buf)
    }
}

impl Sink for MemLink {
    ghost held = { λ link. held_of link.sink };

    ghost write_faults = { λ link. link.sink.faults };

    ghost beside = { λ link. record {
      bytes = remaining_of link.source;
      faults = link.source.faults;
    } };

    /// Writes to the link's sink. Its source is unchanged.
    fn write(&mut self, piece: &[u8]) -> Result<usize, Failed>
        ensures writes { Writes self.old.sink self.new.sink piece.now result }
        ensures source { self.new.source ≡ self.old.source }
        ensures bytes { WritesFrom (held_of self.old.sink) (held_of self.new.sink)
            piece.now result }
        ensures cause { HasCause self.old.sink.faults self.new.sink.faults result }
    {
        self.sink.write(piece)
    }
}

impl Link for MemLink {
    ghost use Rattle.std.specs.Prelude.{refl};

    ghost read_leaves = { λ _. refl };

    ghost write_leaves = { λ _. refl };

    ghost one_place = { λ _. refl };
}

// Counts a call, and its failure if its number is one of those that fail.
fn count_call(calls: &mut NumberedCalls, faults: &mut FaultCount) -> Result<(), Failed>
    ensures calls { calls.new ≡ called calls.old }
    ensures fails { IsErr result ↔ NextFails calls.old }
    ensures faults { OnErr result (faults.new ≡ one_more faults.old) }
    ensures cause { HasCause faults.old faults.new result }
{
    if calls.next_fails() {
        faults.add_one();
        return Err(Failed);
    }
    Ok(())
}

// Moves bytes from a position on to the beginning of a buffer, up to the next cut.
#[tactic(auto, using(crate::proofs::Stops::moved))]
fn move_bytes(bytes: &[u8], position: usize, cuts: &[u64], buf: &mut [u8]) -> usize
    requires { position ≤ length bytes.now }
    ensures count { result
        ≡ min (length buf.old)
        (fold min (length bytes.now - position) (cuts_after position cuts.now)) }
    ensures moved { buf.new ≡ take result (drop position bytes.now) ++ drop result buf.old }
    ensures within { position + result ≤ length bytes.now }
    ensures rest { drop position bytes.now
        ≡ take result buf.new ++ drop (position + result) bytes.now }
    ensures end { 0 < length buf.old → ((result ≡ 0) ↔ (drop position bytes.now ≡ [])) }
{
    let count = count_to_stop(position, cuts, bytes.len(), buf.len());
    buf[..count].copy_from_slice(&bytes[position..position + count]);
    count
}

// How many bytes a read from a position on moves into a buffer of this length.
fn count_to_stop(position: usize, cuts: &[u64], end: usize, room: usize) -> usize
    requires { position ≤ end }
    ensures count { result
        ≡ min room (fold min (end - position) (cuts_after position cuts.now)) }
    ensures within { position + result ≤ end }
    ensures progress { 0 < room → position < end → 0 < result }
{
    room.min(reach(position, cuts, end - position))
}

// How many bytes a read from the position on can move at most: those before the first cut.
fn reach(position: usize, cuts: &[u64], remaining: usize) -> usize
    ensures { result ≡ fold min remaining (cuts_after position cuts.now) }
{
    cuts.iter()
        .filter(|cut| position < **cut as usize)
        .map(|cut| (*cut as usize).saturating_sub(position))
        .fold(remaining, |least, cut| least.min(cut))
}
