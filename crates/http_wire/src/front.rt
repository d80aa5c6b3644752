//! What stands at the front of a stream: a head, one that breaks a rule, or none.

ghost use Rattle.std.specs.Prelude.{◌≡◌, ◌≤◌, length, take, All, IsTrue, IsUtf8, IfOk, OnErr};
ghost use Rattle.std.specs.List.{list_any};
ghost use Rattle.httparse.specs.Spans.{IsHeaderWithin, IsWithin, span_bytes};
ghost use Rattle.http_wire.specs.declared.front.TheConstants.{SPAN_COUNT};
ghost use Rattle.http_wire.specs.Head.{head_limit, verb_of};
ghost use Rattle.http_wire.specs.Front.{request_at, IsFront};
ghost use Rattle.http_wire.specs.Requests.{StandsHead, is_line_feed, has_line};

use crate::fields::{closes, keeps_field_rules};
use crate::request::{Request, Verb};
use httparse::Status;
use httparse::spans::{HeaderSpan, RequestSpans, parse_request};
use plain_data::{Mem, Txt};
use std::alloc::Global;

/// How many fields a head of `MAX_HEAD_BYTES` could have: each takes at least three bytes.
pub const SPAN_COUNT: usize = 2_731;

/// What the first bytes of a stream are.
#[derive(Debug, Drop)]
pub enum Front {
    /// A head that keeps the rules, and its length in bytes.
    Head(Request, usize),
    /// A head of the grammar that breaks a rule.
    Broken,
    /// A line ended, and whatever bytes follow, no head of the grammar stands there.
    Hopeless,
    /// No head of the grammar, and either some bytes may make one, or no line ended.
    NoHead,
}

/// The verb that a method spells. Methods are compared with their case.
fn verb_of(method: &[u8]) -> Verb
    ensures { result ≡ verb_of method.now }
{
    if method == b"GET".as_slice() {
        Verb::Get
    } else if method == b"HEAD".as_slice() {
        Verb::Head
    } else {
        Verb::Other
    }
}

/// The request whose parts the spans cover.
fn request_at(
    alloc: Global,
    buffer: &[u8],
    head: &RequestSpans,
    fields: &[HeaderSpan],
) -> Mem<Request>
    requires method { IsWithin (length buffer.now) head.now.method }
    requires path { IsWithin (length buffer.now) head.now.path }
    requires text { IsUtf8 (span_bytes buffer.now head.now.path) }
    requires fields { All (IsHeaderWithin (length buffer.now)) fields.now }
    ensures { IfOk result (λ request. request ≡ request_at buffer.now head.now fields.now) }
{
    let target = str::from_utf8(head.path.of(buffer)).unwrap();
    Ok(Request {
        verb: verb_of(head.method.of(buffer)),
        target: Txt::from_str(alloc, target)?,
        close: closes(buffer, head.version, fields),
    })
}

/// Whether some byte is LF.
fn has_line_feed(bytes: &[u8]) -> bool
    ensures { result ≡ list_any is_line_feed bytes.now }
{
    bytes.iter().any(|b| *b == b'\n')
}

/// Whether a line ends after the leading bytes CR and LF.
fn has_line(bytes: &[u8]) -> bool
    ensures { result ≡ has_line bytes.now }
{
    match bytes.iter().position(|b| *b != b'\r' && *b != b'\n') {
        Some(start) => has_line_feed(&bytes[start..]),
        None => false,
    }
}

/// Reads the front of a stream. `NoMemory` comes only where a head that keeps the rules stands
/// there.
pub fn read_front(alloc: Global, bytes: &[u8], spans: &mut [HeaderSpan]) -> Mem<Front>
    requires short { length bytes.now ≤ head_limit }
    requires room { length spans.old ≡ SPAN_COUNT }
    ensures front { IfOk result (IsFront bytes.now) }
    ensures memory { OnErr result (StandsHead bytes.now) }
{
    let head = match parse_request(bytes, spans) {
        Ok(Status::Complete(head)) => head,
        Ok(Status::Partial) => return Ok(Front::NoHead),
        // It is never that places are wanting: so few bytes hold no more fields than that.
        Err(_) if has_line(bytes) => return Ok(Front::Hopeless),
        Err(_) => return Ok(Front::NoHead),
    };
    let fields = &spans[..head.headers];
    if !keeps_field_rules(bytes, head.version, fields) {
        return Ok(Front::Broken);
    }
    let request = request_at(alloc, bytes, &head, fields)?;
    Ok(Front::Head(request, head.len))
}
