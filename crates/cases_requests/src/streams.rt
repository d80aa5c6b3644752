//! The requests of streams.

ghost use Rattle.std.specs.Prelude.{◌≡◌};

use http_wire::{Heads, Next, Verb};
use plain_data::Mem;
use std::alloc::Global;

/// Adds a word and the target of each head that is whole, and returns what stops them.
fn push_heads(alloc: Global, heads: &mut Heads, line: &mut String) -> Mem<Next>
    ensures { heads.new.ended ≡ heads.old.ended }
{
    for _ in 0..100 {
        match heads.next(alloc)? {
            Next::Head(request) => {
                line.push_str(match request.verb {
                    Verb::Get => "get ",
                    Verb::Head => "head ",
                    Verb::Other => "other ",
                })?;
                line.push_str(request.target.as_str())?;
                line.push_str(if request.close { ", close; " } else { "; " })?;
            }
            last => return Ok(last),
        }
    }
    Ok(Next::Bad)
}

/// The requests of a stream that comes in these pieces, and how it ends.
fn requests_in(alloc: Global, pieces: &[&[u8]], ended: bool) -> Mem<String> {
    let mut heads = Heads::new(alloc)?;
    let mut line = String::new(alloc);
    let mut last = Next::More;
    for piece in pieces {
        let _ = heads.feed(piece);
        last = push_heads(alloc, &mut heads, &mut line)?;
    }
    if ended {
        heads.end();
        last = push_heads(alloc, &mut heads, &mut line)?;
    }
    line.push_str(match last {
        Next::Head(_) => "head",
        Next::More => "more",
        Next::Clean => "clean",
        Next::Bad => "bad",
    })?;
    Ok(line)
}

/// The place of a cut in two after which a stream hasn't these requests, if there is one.
fn other_cut(alloc: Global, stream: &[u8], ended: bool, whole: &str) -> Mem<Option<usize>> {
    for cut in 0..stream.len() {
        let line = requests_in(alloc, &[&stream[..cut], &stream[cut..]], ended)?;
        if line.as_str() != whole {
            return Ok(Some(cut));
        }
    }
    Ok(None)
}

/// The requests of a stream and how it ends, or the place of a cut on which these depend.
pub fn requests(alloc: Global, stream: &[u8], ended: bool) -> Mem<String> {
    let whole = requests_in(alloc, &[stream], ended)?;
    let bytes: Vec<&[u8]> = stream.chunks(1).collect(alloc)?;
    if requests_in(alloc, bytes.as_slice(), ended)?.as_str() != whole.as_str() {
        return Ok(String::from_str(alloc, "another byte by byte")?);
    }
    match other_cut(alloc, stream, ended, whole.as_str())? {
        None => Ok(whole),
        Some(cut) => Ok(format!(in alloc; "another where it is cut at {cut}")?),
    }
}

/// A head of this many bytes, from 32 on.
fn head_of(alloc: Global, len: usize) -> Mem<Vec<u8>> {
    let mut head = Vec::from_slice(alloc, b"GET / HTTP/1.1\r\nHost: a\r\nX: ")?;
    for _ in 32..len {
        head.push(b'x')?;
    }
    head.extend_from_slice(b"\r\n\r\n")?;
    Ok(head)
}

/// A head with this many fields.
fn head_with(alloc: Global, fields: usize) -> Mem<Vec<u8>> {
    let mut head = Vec::from_slice(alloc, b"GET / HTTP/1.1\r\nHost: a\r\n")?;
    for _ in 1..fields {
        head.extend_from_slice(b"A: b\r\n")?;
    }
    head.extend_from_slice(b"\r\n")?;
    Ok(head)
}

/// The stream that these words describe.
fn made(alloc: Global, what: &str, count: usize) -> Mem<Vec<u8>> {
    match what {
        "letters" => Ok(vec![in alloc; b'a'; count]?),
        "newlines" => Ok(vec![in alloc; b'\n'; count]?),
        "fields" => head_with(alloc, count),
        _ => head_of(alloc, count),
    }
}

/// The requests of a stream that is described by a word and a number, and how it ends.
pub fn long(alloc: Global, text: &str, ended: bool) -> Mem<String> {
    let (what, count) = text.split_once(" ").unwrap_or((text, ""));
    let stream = made(alloc, what, count.parse::<usize>().unwrap_or(0).min(16_384))?;
    requests_in(alloc, &[stream.as_slice()], ended)
}
