//! What an indented span is: a list or code.

ghost use Rattle.std.specs.Prelude.{◌≡◌, ◌++◌, ◌≤◌, OnOk, IfOk, MatchOption, None, Some, drop};
ghost use Rattle.std.specs.Prelude.{length, min};
ghost use Rattle.std.specs.List.{prefix_len};
ghost use Rattle.std.specs.Char.{is_ascii_digit};
ghost use Rattle.comment_blocks.specs.Lists.{code_of, common_blanks, common_front, item_of};
ghost use Rattle.comment_blocks.specs.Lists.{item_paragraph, item_paragraphs, items_of, marked_at};
ghost use Rattle.comment_blocks.specs.Lists.{marked_with, marker_of, narrowed, numbered_at};
ghost use Rattle.comment_blocks.specs.Lists.{numbered_with};
ghost use Rattle.comment_blocks.specs.Texts.{is_blank};
ghost use Rattle.comment_blocks.specs.LineSteps.{is_filled, is_unmarked, item_at, paragraph_at};
ghost use Rattle.comment_blocks.specs.LineSteps.{texts};

use crate::blank::{blank_len, trim_front};
use crate::block::Item;
use crate::cutting::{after, cut};
use crate::line::{is_blank, skip};
use go_ast::{Mem, Seq, Txt};
use std::alloc::Global;

/// What a line has of an item: the digits of its marker, and the text after it.
#[derive(Clone, Copy)]
pub struct Marked<'a> {
    number: &'a str,
    text: &'a str,
}

/// An item's line, where a blank and a text stand after the marker.
fn marked_with<'a>(number: &'a str, after: &'a str) -> Option<Marked<'a>>
    ensures { MatchOption result (marked_with number.now after.now ≡ None)
        (λ found. marked_with number.now after.now
        ≡ Some (record { number = found.number.now; text = found.text.now })) }
{
    let text = trim_front(after);
    match after.as_bytes() {
        [first, ..] if is_blank(*first) && !text.is_empty() => Some(Marked { number, text }),
        _ => None,
    }
}

/// How many decimal digits a text begins with.
fn digit_len(text: &[u8]) -> usize
    ensures { result ≡ prefix_len is_ascii_digit text.now }
{
    text.iter().take_while(|byte| byte.is_ascii_digit()).count()
}

/// An item's line, by its digits and by what stands after them.
fn numbered_with<'a>(number: &'a str, rest: &'a str) -> Option<Marked<'a>>
    ensures { MatchOption result (numbered_with number.now rest.now ≡ None)
        (λ found. numbered_with number.now rest.now
        ≡ Some (record { number = found.number.now; text = found.text.now })) }
{
    match rest.as_bytes() {
        [b'.' | b')', ..] => marked_with(number, after(rest, 1)),
        _ => None,
    }
}

/// An item's line that begins with digits.
fn numbered(line: &str) -> Option<Marked<'_>>
    ensures { MatchOption result (numbered_at line.now ≡ None)
        (λ found. numbered_at line.now
        ≡ Some (record { number = found.number.now; text = found.text.now })) }
{
    let (number, rest) = cut(line, digit_len(line.as_bytes()));
    numbered_with(number, rest)
}

/// An item's line that begins with its marker.
fn marked_at(line: &str) -> Option<Marked<'_>>
    ensures { MatchOption result (marked_at line.now ≡ None)
        (λ found. marked_at line.now
        ≡ Some (record { number = found.number.now; text = found.text.now })) }
{
    match line.as_bytes() {
        [b'*' | b'+' | b'-', ..] => marked_with("", after(line, 1)),
        [b'0'..=b'9', ..] => numbered(line),
        [0xE2, 0x80, 0xA2, ..] => marked_with("", cut(line, 3).1),
        _ => None,
    }
}

/// What a line has of an item, if it has a marker after its blanks.
pub fn marker_of(line: &str) -> Option<Marked<'_>>
    ensures { MatchOption result (marker_of line.now ≡ None)
        (λ found. marker_of line.now
        ≡ Some (record { number = found.number.now; text = found.text.now })) }
{
    marked_at(trim_front(line))
}

/// How many lines at the beginning have no marker.
fn unmarked_len(lines: &[&str]) -> usize
    ensures len { result ≡ prefix_len is_unmarked (texts lines.now) }
    ensures within { result ≤ length lines.now }
{
    let mut len = 0;
    let mut rest = lines;
    while let [line, after @ ..] = rest {
        if marker_of(line).is_some() {
            break;
        }
        len += 1;
        rest = after;
    }
    len
}

/// How many lines at the beginning aren't empty.
fn filled_len(lines: &[&str]) -> usize
    ensures len { result ≡ prefix_len is_filled (texts lines.now) }
    ensures within { result ≤ length lines.now }
{
    let mut len = 0;
    let mut rest = lines;
    while let [line, after @ ..] = rest {
        if line.is_empty() {
            break;
        }
        len += 1;
        rest = after;
    }
    len
}

/// A paragraph of an item: its lines without the blanks before them.
fn item_paragraph(alloc: Global, lines: &[&str]) -> Mem<Txt>
    ensures { IfOk result (λ text. text ≡ item_paragraph (texts lines.now)) }
{
    let mut text = String::new(alloc);
    let mut rest = lines;
    while let [line, after @ ..] = rest {
        text.push_str(trim_front(line))?;
        if !after.is_empty() {
            text.push_str("\n")?;
        }
        rest = after;
    }
    Ok(Txt::from_string(text))
}

/// Adds the paragraph that lines are, unless the first of them is empty.
fn push_paragraph(alloc: Global, paragraphs: &mut Seq<Txt>, line: &str, lines: &[&str]) -> Mem<()>
    ensures { OnOk result (paragraphs.new
        ≡ paragraphs.old ++ paragraph_at line.now (texts lines.now)) }
{
    if line.is_empty() {
        return Ok(());
    }
    let text = item_paragraph(alloc, lines)?;
    paragraphs.push(text)
}

/// The paragraphs of an item, which empty lines separate.
fn item_paragraphs(alloc: Global, lines: &[&str]) -> Mem<Seq<Txt>>
    ensures { IfOk result (λ paragraphs. paragraphs ≡ item_paragraphs (texts lines.now)) }
{
    let mut paragraphs = Seq::new(alloc);
    let mut rest = lines;
    while let [line, ..] = rest {
        let len = filled_len(rest).max(1);
        push_paragraph(alloc, &mut paragraphs, line, &rest[..len])?;
        rest = skip(rest, len);
    }
    Ok(paragraphs)
}

/// An item, by its first line and those that continue it.
fn item_of(alloc: Global, marked: &Marked, more: &[&str]) -> Mem<Item>
    ensures { IfOk result (λ item. item
        ≡ item_of (record { number = marked.now.number.now; text = marked.now.text.now })
        (texts more.now)) }
{
    let mut lines = Vec::new(alloc);
    lines.push(marked.text)?;
    lines.extend_from_slice(more)?;
    Ok(Item {
        number: Txt::from_str(alloc, marked.number)?,
        paragraphs: item_paragraphs(alloc, lines.as_slice())?,
    })
}

/// Adds the item that a line and those that continue it are, if the line has a marker.
fn push_item(alloc: Global, items: &mut Seq<Item>, line: &str, more: &[&str]) -> Mem<()>
    ensures { OnOk result (items.new ≡ items.old ++ item_at (marker_of line.now) (texts more.now)) }
{
    match marker_of(line) {
        None => Ok(()),
        Some(marked) => {
            let item = item_of(alloc, &marked, more)?;
            items.push(item)
        }
    }
}

/// The items of a list: each from a line with a marker up to the next.
pub fn items_of(alloc: Global, lines: &[&str]) -> Mem<Seq<Item>>
    ensures { IfOk result (λ items. items ≡ items_of (texts lines.now)) }
{
    let mut items = Seq::new(alloc);
    let mut rest = lines;
    while let [line, after @ ..] = rest {
        let len = unmarked_len(after);
        push_item(alloc, &mut items, line, &after[..len])?;
        rest = skip(after, len);
    }
    Ok(items)
}

/// How many bytes two texts begin with in common.
fn common_len(first: &[u8], second: &[u8]) -> usize
    ensures len { result ≡ length (common_front first.now second.now) }
    ensures within { result ≤ length first.now }
{
    let mut left = first;
    let mut right = second;
    let mut len = 0;
    while let [a, after_a @ ..] = left {
        match right {
            [b, after_b @ ..] if *a == *b => {
                len += 1;
                left = after_a;
                right = after_b;
            }
            _ => return len,
        }
    }
    len
}

/// What a line leaves of a run.
#[tactic(auto, using(crate::proofs::ListSteps::common_front_take))]
fn narrowed<'a>(run: &'a [u8], line: &[u8]) -> &'a [u8]
    ensures { result.now ≡ narrowed run.now line.now }
{
    if line.is_empty() {
        run
    } else {
        &run[..common_len(run, line)]
    }
}

/// How many blanks all lines that aren't empty begin with in common.
fn common_blanks(lines: &[&str]) -> usize
    ensures { result ≡ length (common_blanks (texts lines.now)) }
{
    let [first, after @ ..] = lines else {
        return 0;
    };
    let mut run = &first.as_bytes()[..blank_len(first.as_bytes())];
    let mut rest = after;
    while let [line, behind @ ..] = rest {
        run = narrowed(run, line.as_bytes());
        rest = behind;
    }
    run.len()
}

/// A line without its first `count` blanks, or without all where it has fewer.
fn without_blanks(line: &str, count: usize) -> &str
    ensures { result.now ≡ drop (min count (prefix_len is_blank line.now)) line.now }
{
    &line[count.min(blank_len(line.as_bytes()))..]
}

/// The text of code: each line without the blanks that all have in common, and a newline.
pub fn code_of(alloc: Global, lines: &[&str]) -> Mem<Txt>
    ensures { IfOk result (λ text. text ≡ code_of (texts lines.now)) }
{
    let common = common_blanks(lines);
    let mut text = String::new(alloc);
    let mut rest = lines;
    while let [line, after @ ..] = rest {
        text.push_str(without_blanks(line, common))?;
        text.push_str("\n")?;
        rest = after;
    }
    Ok(Txt::from_string(text))
}
