//! The HTML of a text with its links.

ghost use Rattle.std.specs.Prelude.{◌≡◌, ◌++◌, OnOk};
ghost use Rattle.std.specs.List.{flat_map};
ghost use Rattle.comment_html.specs.Html.{inline_html, inlines_html, link_html};

use comment_links::{Definitions, Inline, Names};
use plain_data::Mem;
use std::alloc::Global;
use text_out::Text;

/// Adds a link: its text and its address, both escaped.
#[tactic(auto, unfolding(crate::specs::Html::link_html))]
fn push_link(html: &mut Text, text: &str, href: &str) -> Mem<()>
    ensures { OnOk result (html.new ≡ html.old ++ link_html text.now href.now) }
{
    html.push("<a href=\"")?;
    html.push_escaped(href)?;
    html.push("\">")?;
    html.push_escaped(text)?;
    html.push("</a>")
}

/// Adds a part of a text.
fn push_inline(html: &mut Text, inline: &Inline) -> Mem<()>
    ensures { OnOk result (html.new ≡ html.old ++ inline_html inline.now) }
{
    match inline {
        Inline::Plain(text) => html.push_escaped(text.as_str()),
        Inline::Link { text, href } => push_link(html, text.as_str(), href.as_str()),
    }
}

/// Adds the parts of a text, in their order.
fn push_parts(html: &mut Text, inlines: &[Inline]) -> Mem<()>
    ensures { OnOk result (html.new ≡ html.old ++ flat_map inline_html inlines.now) }
{
    for inline in inlines {
        push_inline(html, inline)?;
    }
    Ok(())
}

/// Adds a text with its links.
#[tactic(auto, unfolding(crate::specs::Html::inlines_html))]
pub fn push_inlines<N: Names>(
    alloc: Global,
    html: &mut Text,
    text: &str,
    definitions: &Definitions,
    names: &N,
) -> Mem<()>
    ensures { OnOk result (html.new
        ≡ html.old ++ inlines_html definitions.now (N.address_of names.now) text.now) }
{
    let inlines = definitions.inlines(alloc, text, names)?;
    push_parts(html, inlines.as_slice())
}
