//! The HTML of a list.

ghost use Rattle.std.specs.Prelude.{◌≡◌, ◌++◌, OnOk};
ghost use Rattle.std.specs.List.{flat_map};
ghost use Rattle.comment_html.specs.Html.{item_html, item_tag, list_html, paragraph_html};
ghost use Rattle.comment_html.specs.Html.{paragraphs_html, value_tag};

use crate::line::push_inlines;
use comment_blocks::Item;
use comment_links::{Definitions, Names};
use go_ast::Txt;
use plain_data::Mem;
use std::alloc::Global;
use text_out::Text;

/// Adds the tag before an item with its number.
#[tactic(auto, unfolding(crate::specs::Html::value_tag))]
fn push_value_tag(html: &mut Text, number: &str) -> Mem<()>
    ensures { OnOk result (html.new ≡ html.old ++ value_tag number.now) }
{
    html.push("<li value=\"")?;
    html.push_escaped(number)?;
    html.push("\">")
}

/// Adds the tag before an item.
fn push_tag(html: &mut Text, numbered: bool, number: &str) -> Mem<()>
    ensures { OnOk result (html.new ≡ html.old ++ item_tag numbered number.now) }
{
    if numbered && !number.is_empty() {
        push_value_tag(html, number)
    } else {
        html.push("<li>")
    }
}

/// Adds a paragraph of an item that has several.
#[tactic(auto, unfolding(crate::specs::Html::paragraph_html))]
fn push_paragraph<N: Names>(
    alloc: Global,
    html: &mut Text,
    text: &str,
    definitions: &Definitions,
    names: &N,
) -> Mem<()>
    ensures { OnOk result (html.new
        ≡ html.old ++ paragraph_html definitions.now (N.address_of names.now) text.now) }
{
    html.push("<p>")?;
    push_inlines(alloc, html, text, definitions, names)?;
    html.push("</p>")
}

/// Adds the paragraphs of an item that doesn't have one alone.
fn push_each<N: Names>(
    alloc: Global,
    html: &mut Text,
    paragraphs: &[Txt],
    definitions: &Definitions,
    names: &N,
) -> Mem<()>
    ensures { OnOk result (html.new ≡ html.old
        ++ flat_map (paragraph_html definitions.now (N.address_of names.now)) paragraphs.now) }
{
    for text in paragraphs {
        push_paragraph(alloc, html, text.as_str(), definitions, names)?;
    }
    Ok(())
}

/// Adds the paragraphs of an item.
fn push_paragraphs<N: Names>(
    alloc: Global,
    html: &mut Text,
    paragraphs: &[Txt],
    definitions: &Definitions,
    names: &N,
) -> Mem<()>
    ensures { OnOk result (html.new ≡ html.old
        ++ paragraphs_html definitions.now (N.address_of names.now) paragraphs.now) }
{
    match paragraphs {
        [text] => push_inlines(alloc, html, text.as_str(), definitions, names),
        _ => push_each(alloc, html, paragraphs, definitions, names),
    }
}

/// Adds an item of a list.
#[tactic(auto, unfolding(crate::specs::Html::item_html))]
fn push_item<N: Names>(
    alloc: Global,
    html: &mut Text,
    numbered: bool,
    item: &Item,
    definitions: &Definitions,
    names: &N,
) -> Mem<()>
    ensures { OnOk result (html.new ≡ html.old
        ++ item_html definitions.now (N.address_of names.now) numbered item.now) }
{
    push_tag(html, numbered, item.number.as_str())?;
    let paragraphs = item.paragraphs.as_slice();
    push_paragraphs(alloc, html, paragraphs, definitions, names)?;
    html.push("</li>\n")
}

/// Adds the items of a list.
fn push_items<N: Names>(
    alloc: Global,
    html: &mut Text,
    numbered: bool,
    items: &[Item],
    definitions: &Definitions,
    names: &N,
) -> Mem<()>
    ensures { OnOk result (html.new ≡ html.old
        ++ flat_map (item_html definitions.now (N.address_of names.now) numbered) items.now) }
{
    for item in items {
        push_item(alloc, html, numbered, item, definitions, names)?;
    }
    Ok(())
}

/// Adds a list.
#[tactic(auto, unfolding(crate::specs::Html::list_html, crate::specs::Html::list_start, crate::specs::Html::list_end))]
pub fn push_list<N: Names>(
    alloc: Global,
    html: &mut Text,
    numbered: bool,
    items: &[Item],
    definitions: &Definitions,
    names: &N,
) -> Mem<()>
    ensures { OnOk result (html.new ≡ html.old
        ++ list_html definitions.now (N.address_of names.now) numbered items.now) }
{
    html.push(if numbered { "<ol>\n" } else { "<ul>\n" })?;
    push_items(alloc, html, numbered, items, definitions, names)?;
    html.push(if numbered { "</ol>\n" } else { "</ul>\n" })
}
