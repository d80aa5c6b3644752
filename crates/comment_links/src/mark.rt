//! The mark at a place of a text.

ghost use Rattle.std.specs.Prelude.{◌≡◌, ◌<◌, IfOk, Some, drop, length, slice_index, take, true};
ghost use Rattle.std.specs.List.{prefix_len};
ghost use Rattle.comment_links.specs.InlinesOf.{defined_link, doc_link, is_inside, or_else};
ghost use Rattle.comment_links.specs.InlinesOf.{quote_at, quote_of};
ghost use Rattle.comment_links.specs.InlineSteps.{closing_from, found_in, may_begin};

use crate::address::address_at;
use crate::bracket::{defined_link, doc_link};
use crate::definitions::Definitions;
use crate::found::Found;
use crate::names::Names;
use crate::part::Inline;
use comment_blocks::cutting::{after, cut};
use go_ast::{Mem, Txt};
use std::alloc::Global;

/// Whether a mark may begin with a byte.
pub fn may_begin(byte: u8) -> bool
    ensures { result ≡ may_begin byte }
{
    byte == b'[' || byte == b'h' || byte == b'f' || byte == b'`' || byte == b'\''
}

/// A quote, which is written with two bytes.
fn quote(alloc: Global, text: &str) -> Mem<Option<Found>>
    ensures { IfOk result (λ found. found ≡ Some (quote_of text.now)) }
{
    Ok(Some(Found {
        inline: Inline::Plain(Txt::from_str(alloc, text)?),
        len: 2,
    }))
}

/// The quote at the beginning of a text.
fn quote_at(alloc: Global, text: &[u8]) -> Mem<Option<Found>>
    ensures { IfOk result (λ found. found ≡ quote_at text.now) }
{
    match text {
        [b'`', b'`', ..] => quote(alloc, "\u{201C}"),
        [b'\'', b'\'', ..] => quote(alloc, "\u{201D}"),
        _ => Ok(None),
    }
}

/// The link whose text begins after the opening bracket, by what stands before the bracket and the
/// number of bytes before the next closing one.
fn bracketed<N: Names>(
    alloc: Global,
    before: &str,
    tail: &str,
    len: usize,
    definitions: &Definitions,
    names: &N,
) -> Mem<Option<Found>>
    requires { len ≡ prefix_len is_inside tail.now }
    ensures { IfOk result (λ found. found ≡ or_else (defined_link definitions.now tail.now)
        (doc_link (N.address_of names.now) before.now tail.now)) }
{
    match defined_link(alloc, tail, definitions)? {
        Some(found) => Ok(Some(found)),
        None => doc_link(alloc, before, tail, len, names),
    }
}

/// The mark at a place where one may begin. `closing` is the place of the next closing bracket, or
/// the end.
#[tactic(auto, unfolding(crate::specs::InlinesOf::found_at))]
pub fn found_at<N: Names>(
    alloc: Global,
    text: &str,
    place: usize,
    closing: usize,
    definitions: &Definitions,
    names: &N,
) -> Mem<Option<Found>>
    requires place { place < length text.now }
    requires begin { may_begin (slice_index text.now place) ≡ true }
    requires closing { closing ≡ closing_from text.now place }
    ensures { IfOk result (λ found.
        found ≡ found_in definitions.now (N.address_of names.now) text.now place) }
{
    let (before, rest) = cut(text, place);
    match rest.as_bytes() {
        [b'[', ..] => {
            let len = closing - place - 1;
            bracketed(alloc, before, after(rest, 1), len, definitions, names)
        }
        [b'h' | b'f', ..] => address_at(alloc, before, rest),
        _ => quote_at(alloc, rest.as_bytes()),
    }
}
