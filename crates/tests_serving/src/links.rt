ghost use Rattle.std.specs.Prelude.{◌≡◌, ℕ, ◌≤◌, List, IfOk, OnOk};
ghost use Rattle.plain_data.specs.Causes.{IsCaused};
ghost use Rattle.link_io.specs.Streams.{Takes, Adds};

use link_io::{
    Both, Link, MemLink, MemSink, MemSource, Sink, Source, StdSink, StdSource, write_whole,
};
use plain_data::Failed;
use std::alloc::{AllocError, Allocator, Global};
use std::cell::Cell;
use std::fmt::Display;
use std::io;
use std::io::{BufRead, ErrorKind, Lines, Read, Write};
use std::test::Fail;

// Why a test's own session over a link ended.
#[derive(Debug, Clone, Copy, PartialEq, Eq)]
enum End {
    ReadFault,
    WriteFault,
}

// What code over any link knows with no second look: a read and a write each change their own side
// alone.
fn echo<L: Link>(link: &mut L) -> Result<(), End>
    ensures moved { OnOk result ((bytes : List ℕ)
        × Takes (L.remaining link.old) bytes (L.remaining link.new)
        × Adds (L.held link.old) bytes (L.held link.new)) }
    ensures read { IsCaused (L.read_faults link.old) (L.read_faults link.new)
        (result ≡ Err End.ReadFault) }
    ensures nothing_written { result ≡ Err End.ReadFault → L.held link.new ≡ L.held link.old }
    ensures write { IsCaused (L.write_faults link.old) (L.write_faults link.new)
        (result ≡ Err End.WriteFault) }
    ensures same_references { L.Source.references link.new ≡ L.Source.references link.old }
{
    let mut buf = [0; 4];
    let Ok(count) = link.read(&mut buf) else {
        return Err(End::ReadFault);
    };
    match write_whole(link, &buf[..count]) {
        Ok(()) => Ok(()),
        Err(_) => Err(End::WriteFault),
    }
}

// What whoever lent the two parts of a link knows of them afterwards.
fn echo_between<I: Source, O: Sink>(input: &mut I, out: &mut O) -> Result<(), End>
    ensures moved { OnOk result ((bytes : List ℕ)
        × Takes (I.remaining input.old) bytes (I.remaining input.new)
        × Adds (O.held out.old) bytes (O.held out.new)) }
    ensures read { IsCaused (I.read_faults input.old) (I.read_faults input.new)
        (result ≡ Err End.ReadFault) }
    ensures write { IsCaused (O.write_faults out.old) (O.write_faults out.new)
        (result ≡ Err End.WriteFault) }
{
    echo(&mut Both { input, out })
}

// Reads to the end of a source, with a buffer of four bytes.
fn read_all(alloc: Global, source: &mut MemSource) -> Result<Vec<u8>, AllocError> {
    let mut all = Vec::new(alloc);
    let mut buf = [0; 4];
    for _ in 0..100 {
        match source.read(&mut buf) {
            Ok(0) => break,
            Ok(count) => all.extend_from_slice(&buf[..count])?,
            Err(Failed) => {}
        }
    }
    Ok(all)
}

#[test]
fn reads_stop_at_cuts_and_at_the_end(rt: HostRuntime) -> Result<(), Fail> {
    let alloc = rt.alloc();
    let bytes = b"abcdefghi".to_vec(alloc)?;
    let cuts = [7, 2].to_vec(alloc)?;
    let mut source = MemSource::new(bytes, cuts, [2].to_vec(alloc)?);
    let mut buf = *b"....";
    for (want, left) in [
        (Ok(2), b"ab.."),
        (Err(Failed), b"ab.."),
        (Ok(4), b"cdef"),
        (Ok(1), b"gdef"),
        (Ok(2), b"hief"),
        (Ok(0), b"hief"),
        (Ok(0), b"hief"),
    ] {
        assert!(rt; source.read(&mut buf) == want);
        assert!(rt; buf.as_slice() == left.as_slice());
    }
    Ok(())
}

#[test]
fn a_source_cut_anywhere_gives_the_same_bytes(rt: HostRuntime) -> Result<(), Fail> {
    let alloc = rt.alloc();
    for cut in 0..8 {
        for failing in 0..5 {
            let cuts = [cut, cut + 1].to_vec(alloc)?;
            let bytes = b"package".to_vec(alloc)?;
            let mut source = MemSource::new(bytes, cuts, [failing].to_vec(alloc)?);
            let all = read_all(alloc, &mut source)?;
            assert!(rt; all.as_slice() == b"package".as_slice(), "cut at {cut}");
        }
    }
    Ok(())
}

#[test]
fn a_whole_piece_is_written_by_short_writes(rt: HostRuntime) -> Result<(), Fail> {
    let alloc = rt.alloc();
    for (most, failing, want, held) in [
        (1, 0, Ok(()), "hello"),
        (3, 0, Ok(()), "hello"),
        (9, 0, Ok(()), "hello"),
        (1, 1, Err(Failed), ""),
        (9, 1, Err(Failed), ""),
        (1, 4, Err(Failed), "hel"),
        (3, 2, Err(Failed), "hel"),
        (9, 2, Ok(()), "hello"),
    ] {
        let mut sink = MemSink::new(alloc, most, [failing].to_vec(alloc)?);
        assert!(rt;
            write_whole(&mut sink, b"hello") == want,
            "at most {most}, failing {failing}"
        );
        assert!(rt; sink.held() == held.as_bytes());
        assert!(rt; write_whole(&mut sink, b"") == Ok(()));
    }
    Ok(())
}

#[test]
fn a_link_leaves_its_other_side(rt: HostRuntime) -> Result<(), Fail> {
    let alloc = rt.alloc();
    let source = MemSource::new(
        b"abcdef".to_vec(alloc)?,
        Vec::new(alloc),
        [2].to_vec(alloc)?,
    );
    let sink = MemSink::new(alloc, 3, [3].to_vec(alloc)?);
    let mut link = MemLink::new(source, sink);
    assert!(rt; echo(&mut link) == Ok(()));
    assert!(rt; echo(&mut link) == Err(End::ReadFault));
    assert!(rt; link.held() == b"abcd".as_slice());
    assert!(rt; echo(&mut link) == Err(End::WriteFault));
    assert!(rt; link.held() == b"abcd".as_slice());
    Ok(())
}

#[test]
fn a_link_of_two_parts_is_both(rt: HostRuntime) -> Result<(), Fail> {
    let alloc = rt.alloc();
    let mut input = MemSource::new(b"abcdef".to_vec(alloc)?, Vec::new(alloc), Vec::new(alloc));
    let mut out = MemSink::new(alloc, 1, Vec::new(alloc));
    assert!(rt; echo_between(&mut input, &mut out) == Ok(()));
    assert!(rt; echo_between(&mut input, &mut out) == Ok(()));
    assert!(rt; out.held() == b"abcdef".as_slice());
    assert!(rt; input.read(&mut [0]) == Ok(0));
    Ok(())
}

// A runtime whose standard input is a text, and whose standard output takes this many bytes at
// once.
#[derive(Clone, Copy)]
struct Canned {
    most: usize,
}

impl Input for Canned {
    type Reader = &'static [u8];

    fn read_line<A: Allocator + Clone>(&self, buf: &mut String<A>) -> io::Result<usize> {
        self.reader().read_line(buf)
    }

    fn lines<A: Allocator>(&self, alloc: A) -> Lines<&'static [u8], A> {
        self.reader().lines(alloc)
    }

    fn reader(&self) -> &'static [u8] {
        b"abcdef"
    }
}

impl Print for Canned {
    fn print<D: Display + Drop>(&self, _: D) -> io::Result<()> {
        Ok(())
    }

    fn println<D: Display + Drop>(&self, _: D) -> io::Result<()> {
        Ok(())
    }

    fn write_all(&self, _: &[u8]) -> io::Result<()> {
        Ok(())
    }

    fn write_some(&self, piece: &[u8]) -> io::Result<usize> {
        Ok(piece.len().min(self.most))
    }
}

// What the calls of a stream come to, one after another: a count of bytes, or an error. As a
// runtime it has such a standard input and such a standard output.
#[derive(Drop)]
struct Scripted {
    calls: &'static [Result<usize, ErrorKind>],
    next: Cell<usize>,
}

impl Scripted {
    fn new(calls: &'static [Result<usize, ErrorKind>]) -> Scripted {
        Scripted {
            calls,
            next: Cell::new(0),
        }
    }

    fn next_call(&self, room: usize) -> io::Result<usize>
        ensures { IfOk result (λ count. count ≤ room) }
    {
        let place = self.next.get();
        self.next.set(place.saturating_add(1));
        match self.calls.get(place).copied().unwrap_or(Ok(0)) {
            Ok(count) => Ok(count.min(room)),
            Err(kind) => Err(io::Error::from(kind)),
        }
    }
}

impl Read for Scripted {
    fn read(&mut self, buf: &mut [u8]) -> io::Result<usize> {
        self.next_call(buf.len())
    }
}

impl BufRead for Scripted {
    fn fill_buf(&mut self) -> io::Result<&[u8]> {
        Ok(&[])
    }

    fn consume(&mut self, _: usize) {}
}

impl Write for Scripted {
    fn write(&mut self, piece: &[u8]) -> io::Result<usize> {
        self.next_call(piece.len())
    }

    fn flush(&mut self) -> io::Result<()> {
        Ok(())
    }
}

impl Input for Scripted {
    type Reader = Scripted;

    fn read_line<A: Allocator + Clone>(&self, _: &mut String<A>) -> io::Result<usize> {
        Ok(0)
    }

    fn lines<A: Allocator>(&self, alloc: A) -> Lines<Scripted, A> {
        BufRead::lines(self.reader(), alloc)
    }

    fn reader(&self) -> Scripted {
        Scripted::new(self.calls)
    }
}

impl Print for Scripted {
    fn print<D: Display + Drop>(&self, _: D) -> io::Result<()> {
        Ok(())
    }

    fn println<D: Display + Drop>(&self, _: D) -> io::Result<()> {
        Ok(())
    }

    fn write_all(&self, _: &[u8]) -> io::Result<()> {
        Ok(())
    }

    fn write_some(&self, piece: &[u8]) -> io::Result<usize> {
        self.next_call(piece.len())
    }
}

const CALLS: &[Result<usize, ErrorKind>] = &[
    Err(ErrorKind::Interrupted),
    Err(ErrorKind::Interrupted),
    Ok(1),
    Err(ErrorKind::BrokenPipe),
    Ok(2),
    Ok(0),
];

#[test]
fn a_signal_is_no_fault_and_a_failed_call_is_not_made_again(rt: HostRuntime) {
    let mut source = StdSource::new(Scripted::new(CALLS));
    let mut sink = StdSink::new(Scripted::new(CALLS));
    for (read, written) in [
        (Ok(1), Ok(1)),
        (Err(Failed), Err(Failed)),
        (Ok(2), Ok(2)),
        (Ok(0), Err(Failed)),
    ] {
        assert!(rt; source.read(&mut [0; 2]) == read);
        assert!(rt; sink.write(b"ab") == written);
    }
    assert!(rt; sink.write(b"") == Ok(0));
}

#[test]
fn standard_streams_pass_bytes_on(rt: HostRuntime) {
    let mut source = StdSource::new(Canned { most: 0 });
    let mut buf = [0; 4];
    assert!(rt; source.read(&mut buf) == Ok(4));
    assert!(rt; buf.as_slice() == b"abcd".as_slice());
    assert!(rt; source.read(&mut buf) == Ok(2));
    assert!(rt; source.read(&mut buf) == Ok(0));
    let mut short = StdSink::new(Canned { most: 1 });
    assert!(rt; short.write(b"ab") == Ok(1));
    assert!(rt; write_whole(&mut short, b"ab") == Ok(()));
    let mut broken = StdSink::new(Canned { most: 0 });
    assert!(rt; write_whole(&mut broken, b"ab") == Err(Failed));
    assert!(rt; broken.write(b"") == Ok(0));
    let mut sink = StdSink::new(rt);
    assert!(rt; write_whole(&mut sink, b"written\n") == Ok(()));
}
