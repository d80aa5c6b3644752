//! The HTML of a block.

ghost use Rattle.std.specs.Prelude.{◌≡◌, ◌++◌, OnOk};
ghost use Rattle.comment_html.specs.Html.{block_html, code_html, heading_html};
ghost use Rattle.comment_html.specs.Html.{paragraph_block_html};

use crate::item::push_list;
use crate::line::push_inlines;
use comment_blocks::Block;
use comment_links::{Definitions, Names};
use plain_data::Mem;
use std::alloc::Global;
use text_out::Text;

#[tactic(auto, unfolding(crate::specs::Html::paragraph_block_html))]
fn push_paragraph<N: Names>(
    alloc: Global,
    html: &mut Text,
    text: &str,
    definitions: &Definitions,
    names: &N,
) -> Mem<()>
    ensures { OnOk result (html.new
        ≡ html.old ++ paragraph_block_html definitions.now (N.address_of names.now) text.now) }
{
    html.push("<p>")?;
    push_inlines(alloc, html, text, definitions, names)?;
    html.push("</p>\n")
}

#[tactic(auto, unfolding(crate::specs::Html::heading_html))]
fn push_heading<N: Names>(
    alloc: Global,
    html: &mut Text,
    text: &str,
    definitions: &Definitions,
    names: &N,
) -> Mem<()>
    ensures { OnOk result (html.new
        ≡ html.old ++ heading_html definitions.now (N.address_of names.now) text.now) }
{
    html.push("<h4>")?;
    push_inlines(alloc, html, text, definitions, names)?;
    html.push("</h4>\n")
}

#[tactic(auto, unfolding(crate::specs::Html::code_html))]
fn push_code(html: &mut Text, text: &str) -> Mem<()>
    ensures { OnOk result (html.new ≡ html.old ++ code_html text.now) }
{
    html.push("<pre>")?;
    html.push_escaped(text)?;
    html.push("</pre>\n")
}

/// Adds a block, by its kind.
pub fn push_block<N: Names>(
    alloc: Global,
    html: &mut Text,
    block: &Block,
    definitions: &Definitions,
    names: &N,
) -> Mem<()>
    ensures { OnOk result (html.new ≡ html.old
        ++ block_html definitions.now (N.address_of names.now) block.now) }
{
    match block {
        Block::Paragraph(text) => push_paragraph(alloc, html, text.as_str(), definitions, names),
        Block::Heading(text) => push_heading(alloc, html, text.as_str(), definitions, names),
        Block::Code(text) => push_code(html, text.as_str()),
        Block::List { numbered, items } => {
            push_list(alloc, html, *numbered, items.as_slice(), definitions, names)
        }
        Block::Links(_) => Ok(()),
    }
}
