//! What the crates on comments say of a text.

use crate::links::{definitions, names};
use comment_blocks::{Block, Item, LinkDef, comment_text, doc_group};
use comment_links::Inline;
use go_ast::MAX_SOURCE_BYTES;
use go_scanner::scan;
use plain_data::{Mem, Seq, Txt};
use std::alloc::Global;

/// How often `long` writes its text.
const TIMES: usize = 20_000;

/// Adds a text in brackets.
fn push_text(line: &mut String, text: &Txt) -> Mem<()> {
    line.push_str("(")?;
    line.push_str(text.as_str())?;
    line.push_str(")")?;
    Ok(())
}

/// Adds an item: its number and its paragraphs.
fn push_item(line: &mut String, item: &Item) -> Mem<()> {
    line.push_str(" ")?;
    line.push_str(item.number.as_str())?;
    for paragraph in item.paragraphs.as_slice() {
        push_text(line, paragraph)?;
    }
    Ok(())
}

/// Adds a list: its kind and its items.
fn push_items(line: &mut String, numbered: bool, items: &[Item]) -> Mem<()> {
    line.push_str(if numbered { "N" } else { "B" })?;
    for item in items {
        push_item(line, item)?;
    }
    Ok(())
}

/// Adds definitions of links: the text and the address of each.
fn push_definitions(line: &mut String, definitions: &[LinkDef]) -> Mem<()> {
    line.push_str("D")?;
    for LinkDef { text, url } in definitions {
        push_text(line, text)?;
        push_text(line, url)?;
    }
    Ok(())
}

/// Adds a block of one text.
fn push_plain(line: &mut String, kind: &str, text: &Txt) -> Mem<()> {
    line.push_str(kind)?;
    push_text(line, text)
}

/// Adds a block: what it is and its texts.
fn push_block(line: &mut String, block: &Block) -> Mem<()> {
    match block {
        Block::Paragraph(text) => push_plain(line, "P", text),
        Block::Heading(text) => push_plain(line, "H", text),
        Block::Code(text) => push_plain(line, "C", text),
        Block::List { numbered, items } => push_items(line, *numbered, items.as_slice()),
        Block::Links(definitions) => push_definitions(line, definitions.as_slice()),
    }
}

/// The blocks of a text, one after another.
pub fn blocks(alloc: Global, text: &str) -> Mem<String> {
    let mut line = String::new(alloc);
    let blocks = comment_blocks::blocks(alloc, text)?;
    for (i, block) in blocks.as_slice().iter().enumerate() {
        if i > 0 {
            line.push_str(", ")?;
        }
        push_block(&mut line, block)?;
    }
    Ok(line)
}

/// The text of the comments that document what begins on a line of a source.
pub fn doc(alloc: Global, source: &str, line: u32) -> Mem<Option<Txt>> {
    let source = source.as_bytes();
    if source.len() <= MAX_SOURCE_BYTES
        && let Ok(scanned) = scan(alloc, source)
        && let Some(range) = doc_group(&scanned, line)
    {
        let comments = &scanned.comments.as_slice()[range.first as usize..range.after as usize];
        return Ok(Some(comment_text(alloc, source, comments)?));
    }
    Ok(None)
}

fn inlines(alloc: Global, text: &str) -> Mem<Seq<Inline>> {
    let links = definitions(alloc)?;
    comment_links::inline(alloc, text, links.as_slice(), &names(alloc)?)
}

/// Adds an inline.
fn push_inline(line: &mut String, inline: &Inline) -> Mem<()> {
    match inline {
        Inline::Plain(text) => {
            line.push_str("{")?;
            line.push_str(text.as_str())?;
            line.push_str("}")?;
        }
        Inline::Link { text, href } => {
            line.push_str("<")?;
            line.push_str(text.as_str())?;
            line.push_str("|")?;
            line.push_str(href.as_str())?;
            line.push_str(">")?;
        }
    }
    Ok(())
}

/// The inlines of a text, one after another.
pub fn inline(alloc: Global, text: &str) -> Mem<String> {
    let mut line = String::new(alloc);
    let inlines = inlines(alloc, text)?;
    for inline in inlines.as_slice() {
        push_inline(&mut line, inline)?;
    }
    Ok(line)
}

/// How many inlines a text has that is written many times. A quadratic reading would not end in
/// the time that a program has.
pub fn long(alloc: Global, text: &str) -> Mem<String> {
    let mut whole = String::new(alloc);
    for _ in 0..TIMES {
        whole.push_str(text)?;
    }
    let count = inlines(alloc, whole.as_str())?.len();
    Ok(format!(in alloc; "{count}")?)
}

/// The HTML of a text.
pub fn html(alloc: Global, text: &str) -> Mem<Txt> {
    let blocks = comment_blocks::blocks(alloc, text)?;
    comment_html::html(alloc, blocks.as_slice(), &names(alloc)?)
}
