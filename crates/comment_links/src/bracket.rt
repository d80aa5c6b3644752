//! Links in brackets.

ghost use Rattle.std.specs.Prelude.{◌≡◌, IfOk, Some, length, map};
ghost use Rattle.std.specs.List.{prefix_len};
ghost use Rattle.comment_blocks.specs.Kinds.{is_in_brackets};
ghost use Rattle.comment_links.specs.Marks.{as_space, url_of, without_star};
ghost use Rattle.comment_links.specs.InlinesOf.{bracket_link, defined_link, doc_link, doc_with};
ghost use Rattle.comment_links.specs.InlinesOf.{is_inside};

use crate::definitions::Definitions;
use crate::found::Found;
use crate::names::Names;
use crate::part::Inline;
use crate::text::begins_in_name;
use comment_blocks::cutting::{after, cut, ends_in_name};
use go_ast::{Mem, Txt};
use std::alloc::Global;

/// The link of a text in brackets to an address.
fn bracket_link(alloc: Global, text: &str, href: Txt) -> Mem<Found>
    ensures { IfOk result (λ found. Some found ≡ bracket_link text.now (Some href)) }
{
    let len = text.len() + 2;
    let text = Txt::from_str(alloc, text)?;
    Ok(Found {
        inline: Inline::Link { text, href },
        len,
    })
}

/// How many bytes at the beginning aren't brackets.
fn unbracketed_len(text: &[u8]) -> usize
    ensures { result ≡ prefix_len is_in_brackets text.now }
{
    text.iter()
        .take_while(|byte| **byte != b'[' && **byte != b']')
        .count()
}

/// The defined link with a text.
fn defined_with(alloc: Global, text: &str, definitions: &Definitions) -> Mem<Option<Found>>
    ensures { IfOk result (λ found.
        found ≡ bracket_link text.now (url_of definitions.now (map as_space text.now))) }
{
    match definitions.url_of(alloc, text)? {
        None => Ok(None),
        Some(url) => {
            let href = Txt::from_str(alloc, url)?;
            Ok(Some(bracket_link(alloc, text, href)?))
        }
    }
}

/// The defined link whose text begins after the opening bracket.
pub fn defined_link(alloc: Global, tail: &str, definitions: &Definitions) -> Mem<Option<Found>>
    ensures { IfOk result (λ found. found ≡ defined_link definitions.now tail.now) }
{
    let (text, rest) = cut(tail, unbracketed_len(tail.as_bytes()));
    match rest.as_bytes() {
        [b']', ..] => defined_with(alloc, text, definitions),
        _ => Ok(None),
    }
}

/// A body without the star that it may begin with.
fn without_star(body: &str) -> &str
    ensures { result.now ≡ without_star body.now }
{
    match body.as_bytes() {
        [b'*', ..] => after(body, 1),
        _ => body,
    }
}

/// The doc link with a body, by what stands before and after it.
fn doc_with<N: Names>(
    alloc: Global,
    before: &str,
    body: &str,
    after: &str,
    names: &N,
) -> Mem<Option<Found>>
    ensures { IfOk result
        (λ found. found ≡ doc_with (N.address_of names.now) before.now body.now after.now) }
{
    if ends_in_name(before) || begins_in_name(after) {
        return Ok(None);
    }
    match names.address(alloc, without_star(body))? {
        None => Ok(None),
        Some(href) => Ok(Some(bracket_link(alloc, body, href)?)),
    }
}

/// The doc link whose body begins after the opening bracket, by the length of the body.
pub fn doc_link<N: Names>(
    alloc: Global,
    before: &str,
    tail: &str,
    len: usize,
    names: &N,
) -> Mem<Option<Found>>
    requires { len ≡ prefix_len is_inside tail.now }
    ensures { IfOk result (λ found. found ≡ doc_link (N.address_of names.now) before.now tail.now) }
{
    let (body, rest) = cut(tail, len);
    match rest.as_bytes() {
        [b']', ..] => doc_with(alloc, before, body, after(rest, 1), names),
        _ => Ok(None),
    }
}
