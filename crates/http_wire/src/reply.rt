//! The heads of replies.

ghost use Rattle.std.specs.Prelude.{◌≡◌, IfOk};
ghost use Rattle.http_wire.specs.Reply.{status_of, allow_line, close_line, reply_head_of};
ghost use Rattle.http_wire.specs.Reply.{bad_reply_bytes};

use plain_data::Mem;
use std::alloc::Global;
use text_out::Text;

/// The status of a reply with a page.
#[derive(Clone, Copy, Debug, PartialEq, Eq)]
pub enum Code {
    /// 200.
    Ok,
    /// 400.
    BadRequest,
    /// 404.
    NotFound,
    /// 405, for a method that isn't allowed.
    NotAllowed,
}

impl Code {
    /// The status code and the reason phrase.
    fn status(self) -> &'static str
        ensures { result.now ≡ status_of self }
    {
        match self {
            Code::Ok => "200 OK",
            Code::BadRequest => "400 Bad Request",
            Code::NotFound => "404 Not Found",
            Code::NotAllowed => "405 Method Not Allowed",
        }
    }

    /// The line that names the allowed methods, next to 405 alone.
    fn allow_line(self) -> &'static str
        ensures { result.now ≡ allow_line self }
    {
        match self {
            Code::NotAllowed => "Allow: GET, HEAD\r\n",
            Code::Ok | Code::BadRequest | Code::NotFound => "",
        }
    }
}

/// The line that announces a close, where the reply is the last one.
fn close_line(last: bool) -> &'static str
    ensures { result.now ≡ close_line last }
{
    if last { "Connection: close\r\n" } else { "" }
}

/// The head of a reply (RFC 9112, section 4), the empty line after it included. `length` is that of
/// the page in bytes, `edition` the number of the edition that it was made of, and `last` says
/// whether the connection closes after the reply.
pub fn reply_head(alloc: Global, code: Code, length: u64, edition: u64, last: bool) -> Mem<Vec<u8>>
    ensures { IfOk result (λ head. head.items ≡ reply_head_of code length edition last) }
{
    let mut head = Text::new(alloc);
    head.push("HTTP/1.1 ")?;
    head.push(code.status())?;
    head.push("\r\nContent-Type: text/html; charset=utf-8\r\nContent-Length: ")?;
    head.push_number(length)?;
    head.push("\r\nGodoc-Edition: ")?;
    head.push_number(edition)?;
    head.push("\r\n")?;
    head.push(code.allow_line())?;
    head.push(close_line(last))?;
    head.push("\r\n")?;
    Ok(head.into_bytes())
}

/// The whole reply to what can't be a request: 400, a close, and a line of text.
pub fn bad_reply(alloc: Global) -> Mem<Vec<u8>>
    ensures { IfOk result (λ reply. reply.items ≡ bad_reply_bytes) }
{
    let reply = "HTTP/1.1 400 Bad Request\r\n\
        Content-Type: text/plain; charset=utf-8\r\n\
        Content-Length: 12\r\n\
        Connection: close\r\n\r\n\
        bad request\n";
    Ok(Vec::from_slice(alloc, reply.as_bytes())?)
}
