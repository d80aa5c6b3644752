ghost use Rattle.std.specs.Prelude.{◌≡◌, ◌+◌, ◌%◌, ◌<◌, ℕ, [], ◌∷◌, ◌++◌, codes, if◌then◌else◌};
ghost use Rattle.plain_data.specs.Causes.{IsCaused};
ghost use Rattle.http_wire.specs.declared.request.Verb.TheVariants as verbs;
ghost use Rattle.session.specs.Session.{Session};

use http_wire::{Request, Verb};
use link_io::{Both, Link, MemLink, MemSink, MemSource, Sink, Source};
use plain_data::Mem;
use publication::{EditionReader, open_editions};
use session::{Responder, SessionEnd, serve_link};
use std::alloc::Global;
use std::sync::{Arc, Wait};
use std::test::Fail;

// A responder whose reply names the number, the edition, the verb and the target.
pub(crate) struct Naming;

fn letter_of(verb: Verb) -> u8
    ensures { result ≡ elim verb [ verbs.Get ↦ 71 | verbs.Head ↦ 72 | verbs.Other ↦ 79 ] }
{
    match verb {
        Verb::Get => b'G',
        Verb::Head => b'H',
        Verb::Other => b'O',
    }
}

impl Responder<u8> for Naming {
    ghost reply_of = { λ _ number edition request last.
        (48 + number % 10) ∷ edition
        ∷ (elim request.verb [ verbs.Get ↦ 71 | verbs.Head ↦ 72 | verbs.Other ↦ 79 ])
        ∷ request.target ++ (if last then codes " Connection: close" else []) ++ 10 ∷ [] };

    fn reply(
        &self,
        alloc: Global,
        number: u64,
        edition: &u8,
        request: &Request,
        last: bool,
    ) -> Mem<Vec<u8>> {
        let mut bytes = Vec::new(alloc);
        bytes.push(b'0' + (number % 10) as u8)?;
        bytes.push(*edition)?;
        bytes.push(letter_of(request.verb))?;
        bytes.extend_from_slice(request.target.as_str().as_bytes())?;
        if last {
            bytes.extend_from_slice(b" Connection: close")?;
        }
        bytes.push(b'\n')?;
        Ok(bytes)
    }
}

// What whoever lent the two parts of a link knows of them after a session.
fn serve_between<I: Source, O: Sink, E: Drop, R: Responder<E>>(
    alloc: Global,
    input: &mut I,
    out: &mut O,
    reader: &mut EditionReader<E>,
    site: &R,
) -> SessionEnd
    ensures session { Session (R.reply_of site.now)
        (record {
          remaining = I.remaining input.old;
          held = O.held out.old;
          read_faults = I.read_faults input.old;
          write_faults = O.write_faults out.old;
        })
        (record {
          remaining = I.remaining input.new;
          held = O.held out.new;
          read_faults = I.read_faults input.new;
          write_faults = O.write_faults out.new;
        })
        reader.old reader.new result }
    ensures read_faults { IsCaused (I.read_faults input.old) (I.read_faults input.new)
        (result ≡ SessionEnd.ReadFault) }
    ensures write_faults { IsCaused (O.write_faults out.old) (O.write_faults out.new)
        (result ≡ SessionEnd.WriteFault) }
{
    serve_link(alloc, &mut Both { input, out }, reader, site)
}

// One session over a link in memory, with a reader of its own of the edition `e`.
fn serve_stream<R: Wait>(
    rt: &R,
    alloc: Global,
    stream: &[u8],
    cuts: &[u64],
    failing_read: u64,
    most: usize,
    failing_write: u64,
) -> Result<(SessionEnd, Vec<u8>), Fail>
    requires { 0 < most }
{
    let cuts = cuts.to_vec(alloc)?;
    let source = MemSource::new(stream.to_vec(alloc)?, cuts, [failing_read].to_vec(alloc)?);
    let sink = MemSink::new(alloc, most, [failing_write].to_vec(alloc)?);
    let mut link = MemLink::new(source, sink);
    let first = Arc::new(alloc, b'e')?;
    let (publisher, mut readers) = open_editions(rt, alloc, first, 1)?;
    let end = readers
        .first_mut()
        .map(|reader| serve_link(alloc, &mut link, reader, &Naming));
    publisher.close(rt);
    Ok((end.ok_or("a reader")?, link.held().to_vec(alloc)?))
}

const STREAM: &[u8] =
    b"GET /a HTTP/1.1\r\nHost: a\r\n\r\nHEAD /b HTTP/1.1\r\nHost: a\r\n\r\nPOST /c HTTP/1.1\r\nHost: a\r\n\r\n";

const REPLIES: &[u8] = b"1eG/a\n1eH/b\n1eO/c\n";

const BAD: &[u8] =
    b"HTTP/1.1 400 Bad Request\r\nContent-Type: text/plain; charset=utf-8\r\nContent-Length: 12\r\nConnection: close\r\n\r\nbad request\n";

#[test]
fn replies_do_not_depend_on_the_cut(rt: HostRuntime) -> Result<(), Fail> {
    let alloc = rt.alloc();
    for cut in 0..STREAM.len() as u64 {
        for most in [1, 5, 1_000] {
            let (end, held) = serve_stream(&rt, alloc, STREAM, &[cut, cut + 7], 0, most.max(1), 0)?;
            assert!(rt; end == SessionEnd::Closed, "cut at {cut}");
            assert!(rt; held.as_slice() == REPLIES, "cut at {cut}");
        }
    }
    Ok(())
}

#[test]
fn each_end_has_its_text(rt: HostRuntime) -> Result<(), Fail> {
    let alloc = rt.alloc();
    let letters = vec![in alloc; b'a'; 8_192]?;
    let table: [(&[u8], SessionEnd, &[u8], bool); 7] = [
        (b"", SessionEnd::Closed, b"", false),
        (b"\r\n\r\n", SessionEnd::Closed, b"", false),
        (
            b"GET / HTTP/1.1\r\nHost: a\r\n\r\nHEAD /b HTTP/1.1\r\nHost: a\r\n\r\nGET / HTTP/1.1\r\n\r\nGET / HTTP/1.1\r\nHost: a\r\n\r\n",
            SessionEnd::Refused,
            b"1eG/\n1eH/b\n",
            true,
        ),
        (
            b"POST /c HTTP/1.1\r\nHost: a\r\n\r\nGET / HT",
            SessionEnd::Refused,
            b"1eO/c\n",
            true,
        ),
        (b"GET / HT", SessionEnd::Refused, b"", true),
        (b"GET / HTTP/1.1\r\n\r\n", SessionEnd::Refused, b"", true),
        (letters.as_slice(), SessionEnd::Refused, b"", true),
    ];
    for (place, (stream, want, replies, refused)) in table.iter().enumerate() {
        let mut text = replies.to_vec(alloc)?;
        if *refused {
            text.extend_from_slice(BAD)?;
        }
        let (end, held) = serve_stream(&rt, alloc, stream, &[3], 0, 9, 0)?;
        assert!(rt; end == *want, "row {place}");
        assert!(rt; held.as_slice() == text.as_slice(), "row {place}");
    }
    Ok(())
}

#[test]
fn a_failed_read_ends_the_session_after_the_replies_so_far(rt: HostRuntime) -> Result<(), Fail> {
    let alloc = rt.alloc();
    // Three reads give one head each, and the fourth the end.
    for (failing, want, held) in [
        (1, SessionEnd::ReadFault, ""),
        (2, SessionEnd::ReadFault, "1eG/a\n"),
        (3, SessionEnd::ReadFault, "1eG/a\n1eH/b\n"),
        (4, SessionEnd::ReadFault, "1eG/a\n1eH/b\n1eO/c\n"),
        (5, SessionEnd::Closed, "1eG/a\n1eH/b\n1eO/c\n"),
    ] {
        let (end, text) = serve_stream(&rt, alloc, STREAM, &[28, 57], failing, 100, 0)?;
        assert!(rt; end == want, "read {failing}");
        assert!(rt; text.as_slice() == held.as_bytes(), "read {failing}");
    }
    Ok(())
}

#[test]
fn a_failed_write_leaves_a_beginning_of_the_text(rt: HostRuntime) -> Result<(), Fail> {
    let alloc = rt.alloc();
    for (most, failing, held) in [
        (1, 1, ""),
        (1, 2, "1"),
        (1, 7, "1eG/a\n"),
        (1, 18, "1eG/a\n1eH/b\n1eO/c"),
        (5, 1, ""),
        (5, 2, "1eG/a"),
        (5, 3, "1eG/a\n"),
        (5, 6, "1eG/a\n1eH/b\n1eO/c"),
    ] {
        let (end, text) = serve_stream(&rt, alloc, STREAM, &[], 0, most.max(1), failing)?;
        assert!(rt; end == SessionEnd::WriteFault, "write {failing}");
        assert!(rt; text.as_slice() == held.as_bytes(), "write {failing}");
    }
    let (end, text) = serve_stream(&rt, alloc, b"GET / HT", &[], 0, 5, 2)?;
    assert!(rt; end == SessionEnd::WriteFault);
    assert!(rt; text.as_slice() == b"HTTP/".as_slice());
    Ok(())
}

#[test]
fn a_request_that_closes_is_answered_last(rt: HostRuntime) -> Result<(), Fail> {
    let alloc = rt.alloc();
    let streams: [&[u8]; 3] = [
        b"GET /a HTTP/1.1\r\nHost: a\r\nConnection: x, close\r\n\r\nGET /b HTTP/1.1\r\n\r\n",
        b"GET /a HTTP/1.0\r\n\r\nGET /b HTTP/1.0\r\n\r\n",
        b"GET /a HTTP/1.0\n\n",
    ];
    for (place, stream) in streams.iter().enumerate() {
        let (end, held) = serve_stream(&rt, alloc, stream, &[3], 0, 9, 0)?;
        assert!(rt; end == SessionEnd::Closed, "row {place}");
        assert!(rt;
            held.as_slice() == b"1eG/a Connection: close\n".as_slice(),
            "row {place}"
        );
    }
    Ok(())
}

#[test]
fn the_thousandth_reply_is_the_last(rt: HostRuntime) -> Result<(), Fail> {
    let alloc = rt.alloc();
    let mut stream = Vec::new(alloc);
    let mut want = Vec::new(alloc);
    for number in 1..=1_001 {
        stream.extend_from_slice(b"GET /pkg/ HTTP/1.1\r\nHost: a\r\n\r\n")?;
        if number < 1_000 {
            want.extend_from_slice(b"1eG/pkg/\n")?;
        }
    }
    want.extend_from_slice(b"1eG/pkg/ Connection: close\n")?;
    let (end, held) = serve_stream(&rt, alloc, stream.as_slice(), &[], 0, 100, 0)?;
    assert!(rt; end == SessionEnd::Full);
    assert!(rt; held == want);
    Ok(())
}

#[test]
fn two_parts_make_a_link(rt: HostRuntime) -> Result<(), Fail> {
    let alloc = rt.alloc();
    let mut input = MemSource::new(STREAM.to_vec(alloc)?, Vec::new(alloc), Vec::new(alloc));
    let mut out = MemSink::new(alloc, 4, Vec::new(alloc));
    let first = Arc::new(alloc, b'e')?;
    let (publisher, mut readers) = open_editions(&rt, alloc, first, 1)?;
    let mut reader = readers.pop().expect(&rt, "a reader");
    let end = serve_between(alloc, &mut input, &mut out, &mut reader, &Naming);
    assert!(rt; end == SessionEnd::Closed);
    assert!(rt; out.held() == REPLIES);
    assert!(rt; matches!(reader.enter(), Ok(entered) if entered.number == 1));
    publisher.close(&rt);
    Ok(())
}

#[test]
fn a_session_answers_by_the_editions_of_its_own_entries(rt: HostRuntime) -> Result<(), Fail> {
    let alloc = rt.alloc();
    let first = Arc::new(alloc, b'e')?;
    let second = Arc::new(alloc, b'f')?;
    let mut sink = MemSink::new(alloc, 100, Vec::new(alloc));
    let mut input = MemSource::new(STREAM.to_vec(alloc)?, Vec::new(alloc), Vec::new(alloc));
    let mut more = MemSource::new(STREAM.to_vec(alloc)?, Vec::new(alloc), Vec::new(alloc));
    let (mut publisher, mut readers) = open_editions(&rt, alloc, first, 1)?;
    let mut reader = readers.pop().expect(&rt, "a reader");
    let end = serve_between(alloc, &mut input, &mut sink, &mut reader, &Naming);
    assert!(rt; end == SessionEnd::Closed);
    assert!(rt; publisher.publish(&rt, second) == Ok(2));
    let end = serve_between(alloc, &mut more, &mut sink, &mut reader, &Naming);
    assert!(rt; end == SessionEnd::Closed);
    publisher.close(&rt);
    assert!(rt; sink.held() == b"1eG/a\n1eH/b\n1eO/c\n2fG/a\n2fH/b\n2fO/c\n".as_slice());
    Ok(())
}
