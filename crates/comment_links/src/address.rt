//! Addresses that stand in a text as they are.

ghost use Rattle.std.specs.Prelude.{◌≡◌, ◌≤◌, IfOk, length};
ghost use Rattle.comment_links.specs.Marks.{is_address_byte, is_final};
ghost use Rattle.comment_links.specs.InlinesOf.{address_at, address_by, address_len, self_link};

use crate::found::Found;
use crate::part::Inline;
use comment_blocks::cutting::ends_in_name;
use go_ast::{Mem, Txt};
use std::alloc::Global;

/// Whether an address may have a byte after its scheme.
fn is_address_byte(byte: u8) -> bool
    ensures { result ≡ is_address_byte byte }
{
    byte.is_ascii_alphanumeric() || b"-._~/?#@!$&*+=%:,;".contains(&byte)
}

/// Whether a byte of an address is left out at its end.
fn is_final(byte: u8) -> bool
    ensures { result ≡ is_final byte }
{
    b".,:;?!".contains(&byte)
}

/// How many bytes of an address begin it: those up to the last that isn't final.
fn address_len(text: &[u8]) -> usize
    ensures len { result ≡ address_len text.now }
    ensures within { result ≤ length text.now }
{
    let mut len = 0;
    let mut seen = 0;
    let mut rest = text;
    while let [byte, after @ ..] = rest {
        if !is_address_byte(*byte) {
            break;
        }
        seen += 1;
        if !is_final(*byte) {
            len = seen;
        }
        rest = after;
    }
    len
}

/// The link of an address to itself.
fn self_link(alloc: Global, address: &str) -> Mem<Found>
    ensures { IfOk result (λ found. found ≡ self_link address.now) }
{
    let text = Txt::from_str(alloc, address)?;
    let href = Txt::from_str(alloc, address)?;
    Ok(Found {
        inline: Inline::Link { text, href },
        len: address.len(),
    })
}

/// The address at the beginning of a text, if it begins with a scheme.
fn address_by(alloc: Global, scheme: &str, text: &str) -> Mem<Option<Found>>
    ensures { IfOk result (λ found. found ≡ address_by scheme.now text.now) }
{
    if !text.as_bytes().starts_with(scheme.as_bytes()) {
        return Ok(None);
    }
    let len = address_len(&text.as_bytes()[scheme.len()..]);
    if len == 0 {
        return Ok(None);
    }
    Ok(Some(self_link(alloc, &text[..scheme.len() + len])?))
}

/// The address at the beginning of a text, by what stands before it.
pub fn address_at(alloc: Global, before: &str, text: &str) -> Mem<Option<Found>>
    ensures { IfOk result (λ found. found ≡ address_at before.now text.now) }
{
    if ends_in_name(before) {
        return Ok(None);
    }
    if let Some(found) = address_by(alloc, "http://", text)? {
        return Ok(Some(found));
    }
    if let Some(found) = address_by(alloc, "https://", text)? {
        return Ok(Some(found));
    }
    address_by(alloc, "ftp://", text)
}
