//! The HTML of blocks.

ghost use Rattle.std.specs.Prelude.{◌≡◌, ◌++◌, IfOk, OnOk, IsUtf8, string_bytes};
ghost use Rattle.std.specs.List.{flat_map};
ghost use Rattle.comment_html.specs.Html.{block_html, definitions_of, html_of};
ghost use Rattle.comment_html.specs.Parts.{IsMarkup};

use crate::block::push_block;
use comment_blocks::{Block, LinkDef};
use comment_links::{Definitions, Names};
use go_ast::{Seq, Txt};
use plain_data::Mem;
use std::alloc::Global;
use text_out::Text;

fn copied(alloc: Global, definition: &LinkDef) -> Mem<LinkDef>
    ensures { IfOk result (λ copy. copy ≡ definition.now) }
{
    Ok(LinkDef {
        text: Txt::from_str(alloc, definition.text.as_str())?,
        url: Txt::from_str(alloc, definition.url.as_str())?,
    })
}

fn push_copies(alloc: Global, all: &mut Seq<LinkDef>, definitions: &[LinkDef]) -> Mem<()>
    ensures { OnOk result (all.new ≡ all.old ++ definitions.now) }
{
    for definition in definitions {
        all.push(copied(alloc, definition)?)?;
    }
    Ok(())
}

/// The definitions of links among blocks, in their order.
fn definitions_of(alloc: Global, blocks: &[Block]) -> Mem<Seq<LinkDef>>
    ensures { IfOk result (λ definitions. definitions ≡ definitions_of blocks.now) }
{
    let mut all = Seq::new(alloc);
    for block in blocks {
        if let Block::Links(definitions) = block {
            push_copies(alloc, &mut all, definitions.as_slice())?;
        }
    }
    Ok(all)
}

fn push_blocks<N: Names>(
    alloc: Global,
    html: &mut Text,
    blocks: &[Block],
    definitions: &Definitions,
    names: &N,
) -> Mem<()>
    ensures { OnOk result (html.new ≡ html.old
        ++ flat_map (block_html definitions.now (N.address_of names.now)) blocks.now) }
{
    for block in blocks {
        push_block(alloc, html, block, definitions, names)?;
    }
    Ok(())
}

/// The text of what was written.
fn text_of(html: Text) -> Txt
    ensures { result ≡ html }
{
    Txt::from_string(String::from_utf8(html.into_bytes()).unwrap())
}

/// The HTML of the blocks of a doc comment, each by its kind, where `names` says which bodies of
/// links have an address (Go Doc Comments). Every text and every address stands in it escaped. The
/// definitions of links add nothing, and count for all blocks.
///
/// # Errors
///
/// `NoMemory` where an allocation is refused, or the names give it.
pub fn html<N: Names>(alloc: Global, blocks: &[Block], names: &N) -> Mem<Txt>
    ensures value { IfOk result (λ html. html ≡ html_of blocks.now (N.address_of names.now)) }
    ensures markup { IfOk result (IsMarkup blocks.now (N.address_of names.now)) }
{
    let links = definitions_of(alloc, blocks)?;
    let definitions = Definitions::new(alloc, links.as_slice())?;
    let mut html = Text::new(alloc);
    push_blocks(alloc, &mut html, blocks, &definitions, names)?;
    Ok(text_of(html))
}
