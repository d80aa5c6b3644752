//! The blocks of a text.

ghost use Rattle.std.specs.Prelude.{◌≡◌, ◌&&◌, ◌||◌, ◌+◌, ◌++◌, ◌≤◌, length, true, false, OnOk};
ghost use Rattle.std.specs.Prelude.{IfOk, MatchOption, None, Some};
ghost use Rattle.comment_blocks.specs.Blocks.{blocks_of, indented_block, is_formed, is_free};
ghost use Rattle.comment_blocks.specs.Blocks.{is_numbered, list_of, marked_between, plain_beyond};
ghost use Rattle.comment_blocks.specs.Blocks.{plain_block};
ghost use Rattle.comment_blocks.specs.Lists.{items_of};
ghost use Rattle.comment_blocks.specs.LineSteps.{block_at, blocks_from, span_block, span_len};
ghost use Rattle.comment_blocks.specs.LineSteps.{texts};
ghost use Rattle.comment_blocks.specs.Spans.{is_empty, is_plain, pieces_of};

use crate::block::{Block, Item};
use crate::line::{indented_len, is_plain, lines_of, plain_len, skip};
use crate::list::{code_of, items_of, marker_of};
use crate::plain::{definitions_of, has_heading_form, joined, marked_heading};
use go_ast::{Mem, Seq, Txt};
use std::alloc::Global;

/// Whether the first line is empty, or there isn't one.
fn is_free(lines: &[&str]) -> bool
    ensures { result ≡ is_free (pieces_of (texts lines.now)) }
{
    match lines {
        [] => true,
        [line, ..] => line.is_empty(),
    }
}

/// Whether the first line that isn't empty is there, and plain.
fn plain_beyond(lines: &[&str]) -> bool
    ensures { result ≡ plain_beyond (pieces_of (texts lines.now)) }
{
    let mut rest = lines;
    while let [line, after @ ..] = rest {
        if !line.is_empty() {
            return is_plain(line);
        }
        rest = after;
    }
    false
}

/// The text of the heading with its mark that the one line of a span is.
fn marked_between<'a>(free: bool, lines: &[&'a str]) -> Option<&'a str>
    ensures { MatchOption result (marked_between free (texts lines.now) ≡ None)
        (λ heading. marked_between free (texts lines.now) ≡ Some heading.now) }
{
    match lines {
        [line] if free => marked_heading(line),
        _ => None,
    }
}

/// Whether the one line of a span is a heading by its form.
fn is_formed(free: bool, among: bool, lines: &[&str]) -> bool
    ensures { result ≡ is_formed free among (texts lines.now) }
{
    match lines {
        [line] => free && among && has_heading_form(line),
        _ => false,
    }
}

/// The block of a plain span: `free` says whether the lines on both sides are empty or absent,
/// `among` whether the spans on both sides are there and plain.
fn plain_block(alloc: Global, free: bool, among: bool, lines: &[&str]) -> Mem<Block>
    ensures { IfOk result (λ block. block ≡ plain_block free among (texts lines.now)) }
{
    if let Some(heading) = marked_between(free, lines) {
        return Ok(Block::Heading(Txt::from_str(alloc, heading)?));
    }
    if let Some(definitions) = definitions_of(alloc, lines)? {
        return Ok(Block::Links(definitions));
    }
    let text = joined(alloc, lines)?;
    if is_formed(free, among, lines) {
        Ok(Block::Heading(text))
    } else {
        Ok(Block::Paragraph(text))
    }
}

/// Whether the first item has a number.
fn is_numbered(items: &[Item]) -> bool
    ensures { result ≡ is_numbered items.now }
{
    match items {
        [] => false,
        [first, ..] => !first.number.as_str().is_empty(),
    }
}

fn list_block(alloc: Global, lines: &[&str]) -> Mem<Block>
    ensures { IfOk result (λ block. block ≡ list_of (items_of (texts lines.now))) }
{
    let items = items_of(alloc, lines)?;
    let numbered = is_numbered(items.as_slice());
    Ok(Block::List { numbered, items })
}

fn indented_block(alloc: Global, lines: &[&str]) -> Mem<Block>
    ensures { IfOk result (λ block. block ≡ indented_block (texts lines.now)) }
{
    match lines {
        [first, ..] if marker_of(first).is_some() => list_block(alloc, lines),
        _ => Ok(Block::Code(code_of(alloc, lines)?)),
    }
}

/// How many lines the span or the empty line at the beginning has, by its first line and those
/// after it.
fn piece_len(line: &str, after: &[&str]) -> usize
    ensures len { result ≡ 1 + span_len line.now (texts after.now) }
    ensures within { result ≤ 1 + length after.now }
{
    if is_plain(line) {
        1 + plain_len(after)
    } else if line.is_empty() {
        1
    } else {
        1 + indented_len(after)
    }
}

/// The block of a span that begins with a line, by the lines after it: `free` says whether the
/// line before it is empty or absent, `plain` whether the span before it is there and plain.
fn span_block(
    alloc: Global,
    free: bool,
    plain: bool,
    line: &str,
    span: &[&str],
    behind: &[&str],
) -> Mem<Block>
    ensures { IfOk result (λ block.
        block ≡ span_block free plain line.now (texts span.now) (pieces_of (texts behind.now))) }
{
    if is_plain(line) {
        let free_between = free && is_free(behind);
        let among = plain && plain_beyond(behind);
        plain_block(alloc, free_between, among, span)
    } else {
        indented_block(alloc, span)
    }
}

/// Adds the block of a span that begins with a line, or nothing for an empty line.
fn push_block(
    alloc: Global,
    blocks: &mut Seq<Block>,
    free: bool,
    plain: bool,
    line: &str,
    span: &[&str],
    behind: &[&str],
) -> Mem<()>
    ensures { OnOk result (blocks.new ≡ blocks.old
        ++ block_at free plain line.now (texts span.now) (pieces_of (texts behind.now))) }
{
    if line.is_empty() {
        return Ok(());
    }
    let block = span_block(alloc, free, plain, line, span, behind)?;
    blocks.push(block)
}

/// Whether the last span up to a line is plain, by whether the one before the line is.
fn is_plain_so_far(line: &str, plain: bool) -> bool
    ensures { result ≡ (is_plain line.now || (is_empty line.now && plain)) }
{
    is_plain(line) || (line.is_empty() && plain)
}

fn blocks_of_lines(alloc: Global, lines: &[&str]) -> Mem<Seq<Block>>
    ensures { IfOk result (λ blocks.
        blocks ≡ blocks_from true false (pieces_of (texts lines.now))) }
{
    let mut blocks = Seq::new(alloc);
    let mut free = true;
    let mut plain = false;
    let mut rest = lines;
    while let [line, after @ ..] = rest {
        let len = piece_len(line, after);
        let behind = skip(rest, len);
        push_block(alloc, &mut blocks, free, plain, line, &rest[..len], behind)?;
        free = line.is_empty();
        plain = is_plain_so_far(line, plain);
        rest = behind;
    }
    Ok(blocks)
}

/// The blocks of a comment's text, in their order: a heading, a paragraph, definitions of links, a
/// list or code for each span of its lines (Go Doc Comments). It takes a number of steps in
/// proportion to the length of the text.
///
/// # Errors
///
/// `NoMemory` where an allocation is refused.
pub fn blocks(alloc: Global, text: &str) -> Mem<Seq<Block>>
    ensures { IfOk result (λ blocks. blocks ≡ blocks_of text.now) }
{
    let lines = lines_of(alloc, text)?;
    blocks_of_lines(alloc, lines.as_slice())
}
