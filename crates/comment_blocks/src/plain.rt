//! What a plain span is: a heading, definitions of links, or a paragraph.

ghost use Rattle.std.specs.Prelude.{◌≡◌, ◌≤◌, ◌<◌, IfOk, MatchOption, None, Some, length, nat_eq};
ghost use Rattle.std.specs.List.{join_with_byte, list_any, prefix_len};
ghost use Rattle.go_ast.specs.Characters.{newline};
ghost use Rattle.comment_blocks.specs.Kinds.{begins_blank, defined_by, definition_behind};
ghost use Rattle.comment_blocks.specs.Kinds.{definition_in, definition_of, definition_with};
ghost use Rattle.comment_blocks.specs.Kinds.{definitions_of, has_heading_form, has_known_scheme};
ghost use Rattle.comment_blocks.specs.Kinds.{has_scheme, heading_after, is_address};
ghost use Rattle.comment_blocks.specs.Kinds.{is_heading_mark, is_in_brackets};
ghost use Rattle.comment_blocks.specs.Kinds.{marked_heading};
ghost use Rattle.comment_blocks.specs.LineSteps.{texts};
ghost use Rattle.comment_blocks.specs.Texts.{is_blank};

use crate::blank::{trim_back, trim_front};
use crate::block::LinkDef;
use crate::cutting::{after, cut, ends_in_name};
use crate::line::is_blank;
use go_ast::{Mem, Seq, Txt};
use go_chars::is_exported;
use std::alloc::Global;

/// The text of a heading after its mark, or `None` where there are blanks alone.
fn heading_after(text: &str) -> Option<&str>
    ensures { MatchOption result (heading_after text.now ≡ None)
        (λ heading. heading_after text.now ≡ Some heading.now) }
{
    let text = trim_front(text);
    if text.is_empty() {
        None
    } else {
        Some(trim_back(text))
    }
}

/// The text of the heading that a line with the mark `# ` is.
pub fn marked_heading(line: &str) -> Option<&str>
    ensures { MatchOption result (marked_heading line.now ≡ None)
        (λ heading. marked_heading line.now ≡ Some heading.now) }
{
    match line.as_bytes() {
        [b'#', b' ', ..] => heading_after(after(line, 2)),
        _ => None,
    }
}

/// Whether a line with this byte can't be a heading without a mark.
fn is_heading_mark(byte: u8) -> bool
    ensures { result ≡ is_heading_mark byte }
{
    b";:!?+*/=[]{}_^&~%#@<>\"\\.".contains(&byte)
}

/// Whether a text has a byte that a heading without a mark can't have.
fn has_heading_mark(text: &[u8]) -> bool
    ensures { result ≡ list_any is_heading_mark text.now }
{
    text.iter().any(|byte| is_heading_mark(*byte))
}

/// Whether a line has the form of a heading.
pub fn has_heading_form(line: &str) -> bool
    ensures { result ≡ has_heading_form line.now }
{
    is_exported(line) && ends_in_name(line) && !has_heading_mark(line.as_bytes())
}

/// Whether an address begins with a scheme and has something after it.
fn has_scheme(scheme: &str, address: &[u8]) -> bool
    ensures { result ≡ has_scheme scheme.now address.now }
{
    address.starts_with(scheme.as_bytes()) && scheme.len() < address.len()
}

/// Whether an address begins with one of the three schemes and has something after it.
fn has_known_scheme(address: &[u8]) -> bool
    ensures { result ≡ has_known_scheme address.now }
{
    has_scheme("http://", address)
        || has_scheme("https://", address)
        || has_scheme("ftp://", address)
}

fn has_blank(text: &[u8]) -> bool
    ensures { result ≡ list_any is_blank text.now }
{
    text.iter().any(|byte| is_blank(*byte))
}

/// Whether a text is an address of a link's definition.
fn is_address(text: &[u8]) -> bool
    ensures { result ≡ is_address text.now }
{
    has_known_scheme(text) && !has_blank(text)
}

/// How many bytes at the beginning of a text aren't brackets.
fn unbracketed_len(text: &[u8]) -> usize
    ensures { result ≡ prefix_len is_in_brackets text.now }
{
    text.iter()
        .take_while(|byte| **byte != b'[' && **byte != b']')
        .count()
}

/// Whether a text begins with a blank.
pub fn begins_blank(text: &[u8]) -> bool
    ensures { result ≡ begins_blank text.now }
{
    match text {
        [] => false,
        [first, ..] => is_blank(*first),
    }
}

/// A definition of a link, in its line.
struct Definition<'a> {
    text: &'a str,
    url: &'a str,
}

/// A definition, by its text and by what stands after `]:`.
fn defined_by<'a>(text: &'a str, after: &'a str) -> Option<Definition<'a>>
    ensures { MatchOption result (defined_by text.now after.now ≡ None)
        (λ found. defined_by text.now after.now
        ≡ Some (record { text = found.text.now; url = found.url.now })) }
{
    let url = trim_front(after);
    if begins_blank(after.as_bytes()) && is_address(url.as_bytes()) {
        Some(Definition { text, url })
    } else {
        None
    }
}

/// A definition, by its text and by what stands after that.
fn definition_behind<'a>(text: &'a str, rest: &'a str) -> Option<Definition<'a>>
    ensures { MatchOption result (definition_behind text.now rest.now ≡ None)
        (λ found. definition_behind text.now rest.now
        ≡ Some (record { text = found.text.now; url = found.url.now })) }
{
    match rest.as_bytes() {
        [b']', b':', ..] => defined_by(text, after(rest, 2)),
        _ => None,
    }
}

/// The same, where the text may be empty.
fn definition_with<'a>(text: &'a str, rest: &'a str) -> Option<Definition<'a>>
    ensures { MatchOption result (definition_with text.now rest.now ≡ None)
        (λ found. definition_with text.now rest.now
        ≡ Some (record { text = found.text.now; url = found.url.now })) }
{
    if text.is_empty() {
        None
    } else {
        definition_behind(text, rest)
    }
}

/// The definition whose text begins after the opening bracket.
fn definition_in(line: &str) -> Option<Definition<'_>>
    ensures { MatchOption result (definition_in line.now ≡ None)
        (λ found. definition_in line.now
        ≡ Some (record { text = found.text.now; url = found.url.now })) }
{
    let (text, rest) = cut(line, unbracketed_len(line.as_bytes()));
    definition_with(text, rest)
}

fn definition_of(line: &str) -> Option<Definition<'_>>
    ensures { MatchOption result (definition_of line.now ≡ None)
        (λ found. definition_of line.now
        ≡ Some (record { text = found.text.now; url = found.url.now })) }
{
    match line.as_bytes() {
        [b'[', ..] => definition_in(after(line, 1)),
        _ => None,
    }
}

/// The definitions that lines are, or `None` where one of them isn't.
pub fn definitions_of(alloc: Global, lines: &[&str]) -> Mem<Option<Seq<LinkDef>>>
    ensures { IfOk result (λ definitions. definitions ≡ definitions_of (texts lines.now)) }
{
    let mut definitions = Seq::new(alloc);
    let mut rest = lines;
    while let [line, after @ ..] = rest {
        match definition_of(line) {
            None => return Ok(None),
            Some(Definition { text, url }) => {
                let text = Txt::from_str(alloc, text)?;
                let url = Txt::from_str(alloc, url)?;
                definitions.push(LinkDef { text, url })?;
            }
        }
        rest = after;
    }
    Ok(Some(definitions))
}

/// Lines, joined by newlines.
pub fn joined(alloc: Global, lines: &[&str]) -> Mem<Txt>
    ensures { IfOk result (λ text. text ≡ join_with_byte newline (texts lines.now)) }
{
    let mut text = String::new(alloc);
    let mut rest = lines;
    while let [line, after @ ..] = rest {
        text.push_str(line)?;
        if !after.is_empty() {
            text.push_str("\n")?;
        }
        rest = after;
    }
    Ok(Txt::from_string(text))
}
