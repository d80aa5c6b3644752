//! A stream of bytes, cut into the heads of requests.

ghost use Rattle.std.specs.Prelude.{◌≡◌, ℕ, ◌+◌, ◌-◌, ◌<◌, ◌≤◌, ◌↔◌, ◌⊎◌, true, false, IsTrue};
ghost use Rattle.std.specs.Prelude.{List, [], ◌++◌, length, take, drop, min};
ghost use Rattle.std.specs.Prelude.{vec_len, vec_capacity, IfOk, OnErr, OnOk};
ghost use Rattle.http_wire.specs.declared.front.TheConstants.{SPAN_COUNT};
ghost use Rattle.http_wire.specs.declared.request.Request.{Request};
ghost use Rattle.http_wire.specs.Head.{head_limit};
ghost use Rattle.http_wire.specs.Reading.{Answers, AnswersOfAll, answer_of, reading, rest_limit};
ghost use Rattle.http_wire.specs.Requests.{HasGiven, Requests, StandsHead, StreamEnd};
ghost use Rattle.http_wire.specs.Requests.{has_other_byte};

use crate::front::{Front, SPAN_COUNT, read_front};
use crate::request::{MAX_HEAD_BYTES, Request};
use httparse::spans::{EMPTY_HEADER_SPAN, HeaderSpan};
use plain_data::Mem;
use std::alloc::Global;
use std::marker::Model;

/// The most bytes that a reader holds: those fed that stand in no head given.
pub const MAX_REST_BYTES: usize = 16_384;

/// The bytes that are allocated: twice as many, so that the rest moves to the front at most once
/// for each `MAX_REST_BYTES` that were given.
const BUFFER_BYTES: usize = 32_768;

/// What stands next in a stream.
#[derive(Debug, Drop)]
pub enum Next {
    /// The head of a request.
    Head(Request),
    /// Nothing is decided before more bytes come.
    More,
    /// The input ended, and no head was begun.
    Clean,
    /// What comes next can't be the head of a request that is answered.
    Bad,
}

/// A reader of the heads in a stream of bytes. It is fed pieces of any size, and gives one head
/// after another. It takes all its memory at once.
#[derive(Debug, Drop)]
pub struct Heads {
    bytes: Vec<u8>,
    start: usize,
    ended: bool,
    spans: Vec<HeaderSpan>,
}

// Contracts see the bytes fed that stand in no head given, and whether the input ended.
impl Model for Heads {
    ghost use Rattle.std.specs.Prelude.{◌≡◌, ◌+◌, ◌≤◌, drop, vec_len, vec_capacity};
    ghost use Rattle.http_wire.specs.declared.front.TheConstants.{SPAN_COUNT};
    ghost use Rattle.http_wire.specs.declared.heads.TheConstants.{BUFFER_BYTES};
    ghost use Rattle.http_wire.specs.Reading.{Reading, rest_limit};

    ghost Value = { Reading };

    ghost view = { λ it. record { rest = drop it.start it.bytes.items; ended = it.ended } };

    ghost invariant = { λ it. (it.start ≤ vec_len it.bytes)
        × (vec_len it.bytes ≤ it.start + rest_limit)
        × (BUFFER_BYTES ≤ vec_capacity it.bytes)
        × (vec_len it.spans ≡ SPAN_COUNT) };
}

/// Drops the first bytes, and moves the rest to the front.
fn move_to_front(bytes: &mut Vec<u8>, start: usize)
    requires { start ≤ vec_len bytes.old }
    ensures items { bytes.new.items ≡ drop start bytes.old.items }
    ensures capacity { vec_capacity bytes.new ≡ vec_capacity bytes.old }
{
    let len = bytes.len() - start;
    bytes.copy_within(start.., 0);
    bytes.truncate(len);
}

/// Whether some byte is neither CR nor LF.
fn has_other_byte(bytes: &[u8]) -> bool
    ensures { result ≡ has_other_byte bytes.now }
{
    bytes.iter().any(|b| *b != b'\r' && *b != b'\n')
}

/// Whether a rest that begins with no head is refused: it is too long, or the input ended in it.
fn is_over(rest: &[u8], ended: bool) -> bool
    ensures { IsTrue result ↔ ((head_limit ≤ length rest.now)
        ⊎ (IsTrue ended × IsTrue (has_other_byte rest.now))) }
{
    rest.len() >= MAX_HEAD_BYTES || (ended && has_other_byte(rest))
}

/// What stands next in a rest, and how many of its bytes are given with it.
fn answer_at(
    alloc: Global,
    rest: &[u8],
    ended: bool,
    spans: &mut [HeaderSpan],
) -> Mem<(Next, usize)>
    requires { length spans.old ≡ SPAN_COUNT }
    ensures within { IfOk result (λ answer. answer.1 ≤ length rest.now) }
    ensures answer { IfOk result
        (λ answer. Answers (reading rest.now ended) answer.0 (drop answer.1 rest.now)) }
    ensures memory { OnErr result (StandsHead rest.now) }
{
    let front = &rest[..rest.len().min(MAX_HEAD_BYTES)];
    match read_front(alloc, front, spans)? {
        Front::Head(request, len) => Ok((Next::Head(request), len)),
        Front::Broken => Ok((Next::Bad, 0)),
        Front::Hopeless => Ok((Next::Bad, 0)),
        Front::NoHead if is_over(rest, ended) => Ok((Next::Bad, 0)),
        Front::NoHead if ended => Ok((Next::Clean, 0)),
        Front::NoHead => Ok((Next::More, 0)),
    }
}

impl Heads {
    /// A reader that was fed nothing. It takes its room at once: a buffer, and the places of as
    /// many fields as the longest head can have.
    pub fn new(alloc: Global) -> Mem<Heads>
        ensures rest { IfOk result (λ heads. heads.rest ≡ []) }
        ensures ended { IfOk result (λ heads. heads.ended ≡ false) }
        ensures given { IfOk result (λ heads. HasGiven [] [] heads.rest) }
    {
        Ok(Heads {
            bytes: Vec::with_capacity(alloc, BUFFER_BYTES)?,
            start: 0,
            ended: false,
            spans: vec![in alloc; EMPTY_HEADER_SPAN; SPAN_COUNT]?,
        })
    }

    /// Takes bytes of the stream, and gives how many first bytes of the piece it took: as many as
    /// there is room for, where [`MAX_REST_BYTES`] that stand in no head given fill it. It takes no
    /// memory.
    pub fn feed(&mut self, piece: &[u8]) -> usize
        requires { self.old.ended ≡ false }
        ensures taken { result ≡ min (length piece.now) (rest_limit - length self.old.rest) }
        ensures rest { self.new.rest ≡ self.old.rest ++ take result piece.now }
        ensures ended { self.new.ended ≡ self.old.ended }
        ensures room { length self.new.rest ≤ rest_limit }

        // Of all that was fed, the requests given stay those that were given.
        ensures given { (fed : List ℕ) (given : List Request) → HasGiven fed given self.old.rest
            → HasGiven (fed ++ take result piece.now) given self.new.rest }
    {
        let held = self.bytes.len() - self.start;
        let taken = piece.len().min(MAX_REST_BYTES - held);
        if self.bytes.capacity() - self.bytes.len() < taken {
            move_to_front(&mut self.bytes, self.start);
            self.start = 0;
        }
        self.bytes.extend_from_slice(&piece[..taken]).unwrap();
        taken
    }

    /// Records that the input ended. It takes no memory.
    pub fn end(&mut self)
        ensures rest { self.new.rest ≡ self.old.rest }
        ensures ended { self.new.ended ≡ true }
    {
        self.ended = true;
    }

    /// What stands next in the stream (RFC 9112, section 2.2). A head is given once, with its
    /// bytes: at most [`MAX_HEAD_BYTES`], the empty lines before it among them. `Bad` comes where a
    /// head breaks a rule, where a line ended and no bytes can make what stands there a head, at as
    /// many bytes as a head may have, and where the input ended in a head; each further call then
    /// gives `Bad`. `NoMemory` comes only where a head is next, and the reader is then as it was.
    pub fn next(&mut self, alloc: Global) -> Mem<Next>
        ensures answer { IfOk result (λ next. Answers self.old next self.new.rest) }

        // Where the definition gives no further request, the call gives how it ends.
        ensures exact { (end : StreamEnd) → Requests self.old.rest self.old.ended [] end
            → result ≡ Ok (answer_of end) }

        // The same of all that was fed, whatever the pieces were.
        ensures stream { (fed : List ℕ) (given : List Request) → HasGiven fed given self.old.rest
            → IfOk result (λ next. AnswersOfAll fed given self.old.ended next self.new.rest) }
        ensures ended { self.new.ended ≡ self.old.ended }
        ensures room { result ≡ Ok Next.More → length self.new.rest < head_limit }
        ensures unchanged { OnErr result (self.new ≡ self.old) }
        ensures memory { OnErr result (StandsHead self.old.rest) }
    {
        let (next, len) = answer_at(
            alloc,
            &self.bytes[self.start..],
            self.ended,
            self.spans.as_mut_slice(),
        )?;
        self.start += len;
        Ok(next)
    }
}
