//! Notes in a text: on a bug, and on what is deprecated.

ghost use Rattle.std.specs.Prelude.{◌≡◌, IfOk, MatchOption, None, Some};
ghost use Rattle.std.specs.List.{prefix_len};
ghost use Rattle.synopsis_notes.specs.Synopses.{is_white};
ghost use Rattle.synopsis_notes.specs.Notes.{behind_colon, bug_of, is_deprecated, is_in_name};
ghost use Rattle.synopsis_notes.specs.Notes.{note_behind, note_closed, note_of_named};
ghost use Rattle.synopsis_notes.specs.Notes.{says_deprecated, trimmed, without_first_white};
ghost use Rattle.synopsis_notes.specs.Notes.{without_last_white};

use comment_blocks::cutting::{after, cut};
use comment_blocks::{Block, blocks};
use go_ast::{Mem, Txt};
use std::alloc::Global;

/// Whether a byte is a blank or a newline.
fn is_white(byte: u8) -> bool
    ensures { result ≡ is_white byte }
{
    byte == b' ' || byte == b'\t' || byte == b'\n'
}

/// How many blanks and newlines a text begins with.
fn white_len(text: &[u8]) -> usize
    ensures { result ≡ prefix_len is_white text.now }
{
    text.iter().take_while(|byte| is_white(**byte)).count()
}

/// A text without the blanks and newlines at its beginning.
fn trim_front(text: &str) -> &str
    ensures { result.now ≡ without_first_white text.now }
{
    &text[white_len(text.as_bytes())..]
}

/// A text without the blanks and newlines at its end.
fn trim_back(text: &str) -> &str
    ensures { result.now ≡ without_last_white text.now }
{
    let bytes = text.as_bytes();
    let mut end = bytes.len();
    while end > 0 && is_white(bytes[end - 1]) {
        end -= 1;
    }
    &text[..end]
}

/// A text without the blanks and newlines at both ends.
fn trim(text: &str) -> &str
    ensures { result.now ≡ trimmed text.now }
{
    trim_back(trim_front(text))
}

/// A text without a colon at its beginning.
fn behind_colon(text: &str) -> &str
    ensures { result.now ≡ behind_colon text.now }
{
    match text.as_bytes() {
        [b':', ..] => after(text, 1),
        _ => text,
    }
}

/// The note after `)`.
fn note_closed(text: &str) -> Option<&str>
    ensures { MatchOption result (note_closed text.now ≡ None)
        (λ note. note_closed text.now ≡ Some note.now) }
{
    match text.as_bytes() {
        [b')', ..] => Some(trim(behind_colon(after(text, 1)))),
        _ => None,
    }
}

/// How many bytes at the beginning of a text aren't parentheses.
fn name_len(text: &[u8]) -> usize
    ensures { result ≡ prefix_len is_in_name text.now }
{
    text.iter()
        .take_while(|byte| **byte != b'(' && **byte != b')')
        .count()
}

/// The note of a text that begins with a name.
fn note_of_named(text: &str) -> Option<&str>
    ensures { MatchOption result (note_of_named text.now ≡ None)
        (λ note. note_of_named text.now ≡ Some note.now) }
{
    match name_len(text.as_bytes()) {
        0 => None,
        len => note_closed(cut(text, len).1),
    }
}

fn note_of(text: &str) -> Option<&str>
    ensures { MatchOption result (bug_of text.now ≡ None)
        (λ note. bug_of text.now ≡ Some note.now) }
{
    match text.as_bytes() {
        [b'B', b'U', b'G', b'(', ..] => note_of_named(after(text, 4)),
        _ => None,
    }
}

/// The note on a bug that the text of a comment is, or `None` where it isn't one: a text that
/// begins `BUG(`, a name that isn't empty and has no parenthesis, `)`, and an optional `:`. The
/// note is what stands after these, without the blanks and newlines at both ends (`go/doc`,
/// `Note`).
///
/// # Errors
///
/// `NoMemory` where an allocation is refused.
pub fn bug(alloc: Global, text: &str) -> Mem<Option<Txt>>
    ensures { IfOk result (λ note. note ≡ bug_of text.now) }
{
    match note_of(text) {
        None => Ok(None),
        Some(note) => Ok(Some(Txt::from_str(alloc, note)?)),
    }
}

/// Whether a block is a paragraph that says that something is deprecated.
fn says_deprecated(block: &Block) -> bool
    ensures { result ≡ says_deprecated block.now }
{
    match block {
        Block::Paragraph(text) => text.as_str().as_bytes().starts_with(b"Deprecated: "),
        _ => false,
    }
}

/// Whether the text of a doc comment says that what it documents is deprecated: one of its
/// paragraphs begins `Deprecated: ` (Go Doc Comments, "Deprecations").
///
/// # Errors
///
/// `NoMemory` where an allocation is refused.
pub fn deprecated(alloc: Global, text: &str) -> Mem<bool>
    ensures { IfOk result (λ deprecated. deprecated ≡ is_deprecated text.now) }
{
    let blocks = blocks(alloc, text)?;
    Ok(blocks.as_slice().iter().any(|block| says_deprecated(block)))
}
