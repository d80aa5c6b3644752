//! The requests that come in over a link.

ghost use Rattle.std.specs.Prelude.{◌≡◌, ℕ, ◌+◌, ◌<◌, ◌≤◌, ◌⊎◌, List, [], ◌++◌, length, false};
ghost use Rattle.std.specs.Prelude.{IfOk, IfSome, OnOk, OnErr, IsErr, IsTrue, Ok};
ghost use Rattle.http_wire.specs.declared.heads.Next.TheVariants as answers;
ghost use Rattle.http_wire.specs.Head.{head_limit};
ghost use Rattle.http_wire.specs.Reading.{rest_limit};
ghost use Rattle.link_io.specs.Streams.{Takes};
ghost use Rattle.session.specs.Incoming.{Hears, KnowsEnd};
ghost use Rattle.session.specs.Pace.{read_limit};
ghost use Rattle.session.specs.Steps.{OnlyReads};

use crate::session_end::Stop;
use http_wire::{Heads, Next};
use link_io::Link;
use plain_data::Failed;
use std::alloc::Global;

/// The most bytes of one read.
const PIECE: usize = 4_096;

// Reads once, and feeds the bytes to the reader of heads, or ends its input.
fn read_piece<L: Link>(link: &mut L, heads: &mut Heads) -> Result<(), Failed>
    requires goes_on { heads.old.ended ≡ false }
    requires room { length heads.old.rest < head_limit }

    ensures fed { (bytes : List ℕ) × Takes (L.remaining link.old) bytes (L.remaining link.new)
        × (heads.new.rest ≡ heads.old.rest ++ bytes) × (length bytes ≤ read_limit) }
    ensures room_left { length heads.new.rest ≤ rest_limit }
    ensures progress { OnOk result
        (IsTrue heads.new.ended ⊎ (length heads.old.rest < length heads.new.rest)) }
    ensures end { KnowsEnd (L.remaining link.new) heads.new }
    ensures failed { OnErr result
        ((heads.new ≡ heads.old) × (L.remaining link.new ≡ L.remaining link.old)) }
    ensures only_reads { OnlyReads L.held L.read_faults L.write_faults L.Source.references
        link.old link.new (IsErr result) }
{
    let mut piece = [0; PIECE];
    let count = link.read(&mut piece)?;
    if count == 0 {
        heads.end();
    } else {
        // All of it is taken: fewer than `MAX_HEAD_BYTES` are held, and `MAX_REST_BYTES` leave room
        // for a whole piece after these.
        let _ = heads.feed(&piece[..count]);
    }
    Ok(())
}

// What stands next in the stream, once that is decided. It reads as often as that takes.
pub(crate) fn next_head<L: Link>(
    alloc: Global,
    link: &mut L,
    heads: &mut Heads,
) -> Result<Next, Stop>
    ensures hears { Hears (L.remaining link.old) (L.remaining link.new) heads.old heads.new result }
    ensures decided { result ≡ Ok answers.More → ⊥ }
    ensures end { KnowsEnd (L.remaining link.old) heads.old
        → KnowsEnd (L.remaining link.new) heads.new }
    ensures only_reads { OnlyReads L.held L.read_faults L.write_faults L.Source.references
        link.old link.new (result ≡ Err Stop.ReadFault) }
{
    loop {
        match heads.next(alloc)? {
            Next::More => {
                if read_piece(link, heads).is_err() {
                    return Err(Stop::ReadFault);
                }
            }
            next => return Ok(next),
        }
    }
}
