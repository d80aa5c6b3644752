ghost use Rattle.std.specs.Prelude.{◌≡◌, None, false};

use crate::sessions::Naming;
use link_io::{Both, Link, MemSink, Sink, Source};
use plain_data::{Failed, FaultCount};
use publication::{Publisher, open_editions};
use session::{SessionEnd, serve_link};
use std::sync::{Arc, Wait};
use std::test::Fail;

// A peer that waits for each reply before it asks again. A read that comes before the reply is
// written fails.
#[derive(Drop)]
struct Turns {
    turn: usize,
    written: usize,
    faults: FaultCount,
}

// What the peer sends next, and how many bytes of replies it has to hold before.
fn request_at(turn: usize) -> (&'static [u8], usize) {
    match turn {
        0 => (b"GET /a HTTP/1.1\r\nHost: a\r\n\r\n", 0),
        1 => (b"HEAD /b HTTP/1.1\r\nHost: a\r\n\r\n", 6),
        _ => (b"", 12),
    }
}

impl Source for Turns {
    ghost remaining = { λ _. None };

    ghost read_faults = { λ link. link.faults };

    ghost beside = { λ _. record { bytes = None; faults = 0 } };

    fn read(&mut self, buf: &mut [u8]) -> Result<usize, Failed> {
        let (request, due) = request_at(self.turn);
        if self.written < due {
            self.faults.add_one();
            return Err(Failed);
        }
        self.turn = self.turn.saturating_add(1);
        let count = request.len().min(buf.len());
        buf[..count].copy_from_slice(&request[..count]);
        Ok(count)
    }
}

impl Sink for Turns {
    ghost held = { λ _. None };

    ghost write_faults = { λ _. 0 };

    ghost beside = { λ link. record { bytes = None; faults = link.faults } };

    fn write(&mut self, piece: &[u8]) -> Result<usize, Failed> {
        self.written = self.written.saturating_add(piece.len());
        Ok(piece.len())
    }
}

impl Link for Turns {
    ghost use Rattle.std.specs.Prelude.{refl};

    ghost read_leaves = { λ _. refl };

    ghost write_leaves = { λ _. refl };

    ghost one_place = { λ _. refl };
}

#[test]
fn a_reply_is_written_before_the_next_request_is_read(rt: HostRuntime) -> Result<(), Fail> {
    let alloc = rt.alloc();
    let mut link = Turns {
        turn: 0,
        written: 0,
        faults: FaultCount::new(),
    };
    let first = Arc::new(alloc, b'e')?;
    let (publisher, mut readers) = open_editions(&rt, alloc, first, 1)?;
    let mut reader = readers.pop().expect(&rt, "a reader");
    let end = serve_link(alloc, &mut link, &mut reader, &Naming);
    publisher.close(&rt);
    assert!(rt; end == SessionEnd::Closed);
    assert!(rt; link.written == 12);
    Ok(())
}

// A source of the same requests. It publishes an edition before it gives the second.
struct Publishing<'a, R> {
    rt: &'a R,
    publisher: Publisher<u8>,
    next: Option<Arc<u8>>,
    turn: usize,
    ghost open: { publisher.closed ≡ false },
}

impl<R: Wait> Publishing<'_, R> {
    fn publish_next(&mut self) {
        if self.publisher.count() < u64::MAX {
            if let Some(next) = self.next.take() {
                let _ = self.publisher.publish(self.rt, next);
            }
        }
    }
}

impl<R: Wait> Source for Publishing<'_, R> {
    ghost remaining = { λ _. None };

    ghost read_faults = { λ _. 0 };

    fn read(&mut self, buf: &mut [u8]) -> Result<usize, Failed> {
        if self.turn == 1 {
            self.publish_next();
        }
        let (request, _) = request_at(self.turn);
        self.turn = self.turn.saturating_add(1);
        let count = request.len().min(buf.len());
        buf[..count].copy_from_slice(&request[..count]);
        Ok(count)
    }
}

#[test]
fn an_edition_published_between_two_requests_answers_the_second(
    rt: HostRuntime,
) -> Result<(), Fail> {
    let alloc = rt.alloc();
    let first = Arc::new(alloc, b'e')?;
    let second = Arc::new(alloc, b'f')?;
    let mut out = MemSink::new(alloc, 100, Vec::new(alloc));
    let (publisher, mut readers) = open_editions(&rt, alloc, first, 1)?;
    let mut reader = readers.pop().expect(&rt, "a reader");
    let mut input = Publishing {
        rt: &rt,
        publisher,
        next: Some(second),
        turn: 0,
    };
    let mut link = Both {
        input: &mut input,
        out: &mut out,
    };
    let end = serve_link(alloc, &mut link, &mut reader, &Naming);
    let Publishing {
        rt: _,
        publisher,
        next: _,
        turn: _,
    } = input;
    publisher.close(&rt);
    assert!(rt; end == SessionEnd::Closed);
    assert!(rt; out.held() == b"1eG/a\n2fH/b\n".as_slice());
    Ok(())
}
