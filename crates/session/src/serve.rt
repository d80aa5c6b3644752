//! A session over a link.

ghost use Rattle.std.specs.Prelude.{◌≡◌, ℕ, ◌≤◌, ◌≢◌, length, Ok};
ghost use Rattle.std.specs.Arc.{arc_value};
ghost use Rattle.plain_data.specs.Causes.{IsCaused};
ghost use Rattle.http_wire.specs.Reply.{bad_reply_bytes};
ghost use Rattle.publication.specs.View.{OnlySees};
ghost use Rattle.session.specs.Session.{ServesLink, Session, state_by};
ghost use Rattle.session.specs.Steps.{OnlyWrites, Writes, end_by};
ghost use Rattle.session.specs.Text.{is_last};

use crate::incoming::next_head;
use crate::responder::Responder;
use crate::session_end::{SessionEnd, Stop};
use http_wire::{Heads, Next, Request, bad_reply};
use link_io::{Link, write_whole};
use publication::{EditionReader, Entered};
use std::alloc::Global;

/// The most requests that are answered on one connection.
const REQUEST_LIMIT: u64 = 1_000;

/// Serves one connection: reads its requests and answers each, in their order, until the session
/// ends.
///
/// Each request that is answered is one entry of the reader, and its reply is made of that entry's
/// edition. A request that closes gets the last reply, and so does the 1,000th. What can't be a
/// request gets the bad reply, which has no entry. A reply is made whole before its first byte is
/// written, and a session that has failed writes no more.
///
/// Each entry is at least as new as all that the reader had seen and received before.
///
/// No read is made between the entry of a request and the last byte of its reply, nor where a
/// request was read whole and has no entry. So at most one head is read ahead of the replies, and
/// after it less than one piece of 4,096 bytes.
///
/// The session waits for nobody but the link, and ends on every link: each read takes a byte or
/// ends the input, and 1,000 heads of at most 8,192 bytes end it.
pub fn serve_link<L: Link, E: Drop, R: Responder<E>>(
    alloc: Global,
    link: &mut L,
    reader: &mut EditionReader<E>,
    site: &R,
) -> SessionEnd
    ensures serves { ServesLink (R.reply_of site.now)
        (state_by L.remaining L.held L.read_faults L.write_faults link.old)
        (state_by L.remaining L.held L.read_faults L.write_faults link.new)
        reader.old reader.new result }
    ensures same_references { L.Source.references link.new ≡ L.Source.references link.old }
{
    match answer_requests(alloc, link, reader, site) {
        Ok(end) => end,
        Err(stop) => SessionEnd::from(stop),
    }
}

// Whether the connection closes after the reply to a request, by the request's number on the
// connection.
fn is_last(number: u64, request: &Request) -> bool
    ensures { result ≡ is_last number request.now }
{
    request.close || number == REQUEST_LIMIT
}

// Answers the requests until the session ends, at most `REQUEST_LIMIT` of them.
fn answer_requests<L: Link, E: Drop, R: Responder<E>>(
    alloc: Global,
    link: &mut L,
    reader: &mut EditionReader<E>,
    site: &R,
) -> Result<SessionEnd, Stop>
    ensures session { Session (R.reply_of site.now)
        (state_by L.remaining L.held L.read_faults L.write_faults link.old)
        (state_by L.remaining L.held L.read_faults L.write_faults link.new)
        reader.old reader.new (end_by result) }
    ensures read_faults { IsCaused (L.read_faults link.old) (L.read_faults link.new)
        (end_by result ≡ SessionEnd.ReadFault) }
    ensures write_faults { IsCaused (L.write_faults link.old) (L.write_faults link.new)
        (end_by result ≡ SessionEnd.WriteFault) }
    ensures same_references { L.Source.references link.new ≡ L.Source.references link.old }
    ensures looks { reader.new.looks ≡ reader.old.looks }
    ensures only_sees { OnlySees reader.old reader.new }
{
    reader.view_holds();
    let mut heads = Heads::new(alloc)?;
    for answered in 0..REQUEST_LIMIT {
        let request = match next_head(alloc, link, &mut heads)? {
            Next::Head(request) => request,
            Next::Bad => {
                refuse(alloc, link)?;
                return Ok(SessionEnd::Refused);
            }
            Next::Clean => return Ok(SessionEnd::Closed),
            Next::More => unreachable!(),
        };
        let entered = reader.enter()?;
        let last = is_last(answered + 1, &request);
        answer(alloc, link, site, &entered, &request, last)?;
        if request.close {
            return Ok(SessionEnd::Closed);
        }
    }
    Ok(SessionEnd::Full)
}

// Answers one request by the edition of an entry. The reply is whole before its first byte is
// written.
fn answer<L: Link, E, R: Responder<E>>(
    alloc: Global,
    link: &mut L,
    site: &R,
    entered: &Entered<E>,
    request: &Request,
    last: bool,
) -> Result<(), Stop>
    ensures writes { Writes
        (R.reply_of site.now entered.now.number (arc_value entered.now.edition) request.now last)
        (L.held link.old) (L.held link.new) result }
    ensures only_writes { OnlyWrites L.remaining L.read_faults L.write_faults L.Source.references
        link.old link.new (result ≡ Err Stop.WriteFault) }
{
    let reply = site.reply(alloc, entered.number, &entered.edition, request, last)?;
    write_reply(link, &reply)
}

// Writes the bad reply.
fn refuse<L: Link>(alloc: Global, link: &mut L) -> Result<(), Stop>
    ensures writes { Writes bad_reply_bytes (L.held link.old) (L.held link.new) result }
    ensures only_writes { OnlyWrites L.remaining L.read_faults L.write_faults L.Source.references
        link.old link.new (result ≡ Err Stop.WriteFault) }
{
    let reply = bad_reply(alloc)?;
    write_reply(link, &reply)
}

// Writes a reply that was made whole.
fn write_reply<L: Link>(link: &mut L, reply: &[u8]) -> Result<(), Stop>
    ensures writes { Writes reply.now (L.held link.old) (L.held link.new) result }
    ensures only_writes { OnlyWrites L.remaining L.read_faults L.write_faults L.Source.references
        link.old link.new (result ≡ Err Stop.WriteFault) }
{
    match write_whole(link, reply) {
        Ok(()) => Ok(()),
        Err(_) => Err(Stop::WriteFault),
    }
}
