//! The synopsis of a text.

ghost use Rattle.std.specs.Prelude.{◌≡◌, IfOk};
ghost use Rattle.synopsis_notes.specs.Synopses.{begins_in_any_case, first_sentence, is_notice};
ghost use Rattle.synopsis_notes.specs.Synopses.{synopsis_of, synopsis_of_sentence};

use crate::sentence::first_sentence;
use comment_blocks::{Block, blocks};
use go_ast::{Mem, Txt};
use std::alloc::Global;

/// Whether a text begins with a word, in any case of ASCII letters.
fn begins_in_any_case(word: &str, text: &[u8]) -> bool
    ensures { result ≡ begins_in_any_case word.now text.now }
{
    let word = word.as_bytes();
    word.len() <= text.len() && text[..word.len()].eq_ignore_ascii_case(word)
}

/// Whether a text is a notice of a right or an author.
fn is_notice(text: &[u8]) -> bool
    ensures { result ≡ is_notice text.now }
{
    begins_in_any_case("copyright", text)
        || begins_in_any_case("all rights", text)
        || begins_in_any_case("author", text)
}

fn synopsis_of_paragraph(alloc: Global, text: &str) -> Mem<Txt>
    ensures { IfOk result (λ synopsis. synopsis ≡ synopsis_of_sentence (first_sentence text.now)) }
{
    let sentence = first_sentence(alloc, text)?;
    if is_notice(sentence.as_str().as_bytes()) {
        Txt::from_str(alloc, "")
    } else {
        Ok(sentence)
    }
}

/// The synopsis of the text of a doc comment: the first sentence of its first block, where that is
/// a paragraph, with each run of blanks and newlines made one space (`go/doc`,
/// `Package.Synopsis`).
///
/// The sentence ends after the first `.` that a space or the end follows, unless one upper case
/// letter stands alone before it, or after the first U+3002 or U+FF0E, and else with the
/// paragraph. The synopsis is empty where it would begin `copyright`, `all rights` or `author`, in
/// any case of ASCII letters.
///
/// # Errors
///
/// `NoMemory` where an allocation is refused.
pub fn synopsis(alloc: Global, text: &str) -> Mem<Txt>
    ensures { IfOk result (λ synopsis. synopsis ≡ synopsis_of text.now) }
{
    let blocks = blocks(alloc, text)?;
    match blocks.as_slice() {
        [Block::Paragraph(paragraph), ..] => synopsis_of_paragraph(alloc, paragraph.as_str()),
        _ => Txt::from_str(alloc, ""),
    }
}
