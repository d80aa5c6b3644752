//! The bytes of replies.

use crate::pictures::push_pictured;
use http_wire::{Code, bad_reply, reply_head};
use plain_data::Mem;
use std::alloc::Global;

/// The bytes of a reply, as a line shows them.
fn shown(alloc: Global, reply: &[u8]) -> Mem<String> {
    let mut line = String::new(alloc);
    match str::from_utf8(reply) {
        Ok(text) => push_pictured(&mut line, text)?,
        Err(_) => line.push_str("not UTF-8")?,
    }
    Ok(line)
}

/// The code with this number.
fn code_of(number: &str) -> Code {
    match number {
        "200" => Code::Ok,
        "404" => Code::NotFound,
        "405" => Code::NotAllowed,
        _ => Code::BadRequest,
    }
}

/// The head of a reply, by its code, the length of its page, the number of its edition, and `last`
/// where the connection closes after it.
pub fn head(alloc: Global, text: &str) -> Mem<String> {
    let mut words = text.split(' ');
    let code = code_of(words.next().unwrap_or(""));
    let length = words.next().unwrap_or("").parse::<u64>().unwrap_or(0);
    let edition = words.next().unwrap_or("").parse::<u64>().unwrap_or(0);
    let last = words.next().is_some();
    let reply = reply_head(alloc, code, length, edition, last)?;
    shown(alloc, reply.as_slice())
}

/// The reply to what can't be a request.
pub fn refusal(alloc: Global) -> Mem<String> {
    shown(alloc, bad_reply(alloc)?.as_slice())
}
