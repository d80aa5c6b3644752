//! The inlines of a text.

ghost use Rattle.std.specs.Prelude.{◌≡◌, ◌≤◌, ◌<◌, IfOk, IfSome, MatchOption, OnOk, Some, length};
ghost use Rattle.std.specs.Str.{IsCharBoundary};
ghost use Rattle.comment_links.specs.InlinesOf.{inlines_of};
ghost use Rattle.comment_links.specs.InlineSteps.{HasNone, IsBegin, IsClosing, IsNext};
ghost use Rattle.comment_links.specs.InlineSteps.{closing_from};

use crate::definitions::Definitions;
use crate::found::Found;
use crate::mark::{found_at, may_begin};
use crate::names::Names;
use crate::part::Inline;
use crate::parts::Parts;
use comment_blocks::LinkDef;
use go_ast::{Mem, Seq};
use memchr::memchr;
use std::alloc::Global;

/// The place of the next closing bracket from a place on, or the end, where it may be known.
fn next_closing(text: &[u8], place: usize, known: usize) -> usize
    requires within { place ≤ length text.now }
    requires known { IsClosing text.now place known }
    ensures { result ≡ closing_from text.now place }
{
    if place < known {
        return known;
    }
    match memchr(b']', &text[place..]) {
        None => text.len(),
        Some(len) => place + len,
    }
}

/// The first place from a place on where a mark may begin, or the end.
fn next_begin(text: &[u8], from: usize) -> usize
    requires { from ≤ length text.now }
    ensures { IsBegin text.now from result }
{
    let mut place = from;
    while place < text.len() && !may_begin(text[place]) {
        place += 1;
    }
    place
}

/// A mark and where it begins.
struct Placed {
    start: usize,
    found: Found,
}

/// The leftmost mark from a place on. `closing` is the place of a closing bracket that is known:
/// each is looked for once.
fn next_mark<N: Names>(
    alloc: Global,
    text: &str,
    from: usize,
    closing: &mut usize,
    definitions: &Definitions,
    names: &N,
) -> Mem<Option<Placed>>
    requires within { from ≤ length text.now }
    requires closing { IsClosing text.now from closing.old }
    ensures mark { IfOk result (λ next. MatchOption next
        (HasNone definitions.now (N.address_of names.now) text.now from (length text.now))
        (λ placed. IsNext definitions.now (N.address_of names.now) text.now from placed.start
        placed.found)) }
    ensures closing { IfOk result (λ next. IfSome next
        (λ placed. IsClosing text.now placed.start closing.new)) }
    ensures start { IfOk result (λ next. IfSome next
        (λ placed. IsCharBoundary text.now placed.start)) }
{
    let bytes = text.as_bytes();
    let mut start = next_begin(bytes, from);
    while start < bytes.len() {
        *closing = next_closing(bytes, start, *closing);
        if let Some(found) = found_at(alloc, text, start, *closing, definitions, names)? {
            return Ok(Some(Placed { start, found }));
        }
        start = next_begin(bytes, start + 1);
    }
    Ok(None)
}

/// The inlines of a text, by definitions that are ready.
fn inlines<N: Names>(
    alloc: Global,
    text: &str,
    definitions: &Definitions,
    names: &N,
) -> Mem<Seq<Inline>>
    ensures { IfOk result
        (λ inlines. inlines ≡ inlines_of definitions.now (N.address_of names.now) text.now) }
{
    let mut parts = Parts::new(alloc);
    let mut from = 0;
    let mut closing = 0;
    while let Some(Placed { start, found }) = next_mark(
        alloc,
        text,
        from,
        &mut closing,
        definitions,
        names,
    )? {
        parts.push_plain(&text[from..start])?;
        parts.push(alloc, found.inline)?;
        from = start + found.len;
    }
    parts.push_plain(&text[from..])?;
    parts.finish(alloc)
}

impl<'a> Definitions<'a> {
    /// The inlines of a text: see [`crate::inline`].
    ///
    /// # Errors
    ///
    /// `NoMemory` where an allocation is refused, or the names give it.
    pub fn inlines<N: Names>(&self, alloc: Global, text: &str, names: &N) -> Mem<Seq<Inline>>
        ensures { IfOk result
            (λ inlines. inlines ≡ inlines_of self.now (N.address_of names.now) text.now) }
    {
        inlines(alloc, text, self, names)
    }
}

/// The inlines of a text: its links, and the plain text between them with its quotes (Go Doc
/// Comments, "Links" and "Doc links"). At each place the first of these rules counts: `[text]`,
/// where the text is defined, `[body]`, where the names have an address of the body, an address, a
/// quote; and of all marks the leftmost after the one before. Two neighbours are never both plain
/// text. What a rule looks for ahead is looked for once, so the number of steps is in proportion to
/// the length of the text, but for what the names do with a body and for looking up what stands in
/// brackets.
///
/// # Errors
///
/// `NoMemory` where an allocation is refused, or the names give it.
pub fn inline<N: Names>(alloc: Global, text: &str, links: &[LinkDef], names: &N) -> Mem<Seq<Inline>>
    ensures { IfOk result
        (λ inlines. inlines ≡ inlines_of links.now (N.address_of names.now) text.now) }
{
    let definitions = Definitions::new(alloc, links)?;
    inlines(alloc, text, &definitions, names)
}
