//! The definitions of links in a comment.

ghost use Rattle.std.specs.Prelude.{◌≡◌, ℕ, List, IfOk, MatchOption, None, Some, map, string_bytes};
ghost use Rattle.std.specs.BTreeMap.{get_by_text};
ghost use Rattle.std.specs.Option.{option_map};
ghost use Rattle.comment_links.specs.Marks.{as_space, url_of};

use comment_blocks::LinkDef;
use go_ast::Mem;
use memchr::memchr;
use std::alloc::Global;
use std::collections::BTreeMap;
use std::marker::Model;

/// The definitions of links in a comment, made ready once for all its texts. Contracts see them as
/// their list; the first one with a text counts.
#[derive(Drop)]
pub struct Definitions<'a> {
    links: &'a [LinkDef],
    urls: BTreeMap<String, &'a str>,
}

impl<'a> Model for Definitions<'a> {
    ghost use Rattle.std.specs.Prelude.{◌≡◌, ℕ, List};
    ghost use Rattle.std.specs.BTreeMap.{get_by_text};
    ghost use Rattle.std.specs.Option.{option_map};
    ghost use Rattle.comment_blocks.specs.declared.block.LinkDef.{LinkDef};
    ghost use Rattle.comment_links.specs.Marks.{url_of};

    ghost Value = { List LinkDef };

    ghost view = { λ it. it.links.now };

    ghost invariant = { λ it. (text : List ℕ)
        → option_map (λ url. url.now) (get_by_text it.urls text) ≡ url_of it.links.now text };
}

/// The URLs of definitions, by their texts.
fn url_by_text<'a>(alloc: Global, links: &'a [LinkDef]) -> Mem<BTreeMap<String, &'a str>>
    ensures { IfOk result (λ urls. (text : List ℕ)
        → option_map (λ url. url.now) (get_by_text urls text) ≡ url_of links.now text) }
{
    let mut urls = BTreeMap::new(alloc);
    let mut rest = links;
    // From the last to the first, so that the first with a text stays.
    while let Some((link, before)) = rest.split_last() {
        urls.insert(
            String::from_str(alloc, link.text.as_str())?,
            link.url.as_str(),
        )?;
        rest = before;
    }
    Ok(urls)
}

/// A text whose newlines are spaces.
fn with_spaces(alloc: Global, text: &str) -> Mem<String>
    ensures { IfOk result (λ spaced. string_bytes spaced ≡ map as_space text.now) }
{
    let mut spaced = String::new(alloc);
    let mut rest = text;
    while let Some(end) = memchr(b'\n', rest.as_bytes()) {
        spaced.push_str(&rest[..end])?;
        spaced.push_str(" ")?;
        rest = &rest[end + 1..];
    }
    spaced.push_str(rest)?;
    Ok(spaced)
}

impl<'a> Definitions<'a> {
    /// Makes definitions ready: n of them take a number of steps in proportion to n log n.
    ///
    /// # Errors
    ///
    /// `NoMemory` where an allocation is refused.
    pub fn new(alloc: Global, links: &'a [LinkDef]) -> Mem<Definitions<'a>>
        ensures { IfOk result (λ definitions. definitions ≡ links.now) }
    {
        let urls = url_by_text(alloc, links)?;
        Ok(Definitions { links, urls })
    }

    /// The URL of the first definition of a text.
    fn url(&self, text: &str) -> Option<&'a str>
        ensures { MatchOption result (url_of self.now text.now ≡ None)
            (λ url. url_of self.now text.now ≡ Some url.now) }
    {
        self.urls.get(text).copied()
    }

    /// The URL of the first definition of a text, whose newlines are read as spaces.
    pub(crate) fn url_of(&self, alloc: Global, text: &str) -> Mem<Option<&'a str>>
        ensures { IfOk result (λ url. MatchOption url
            (url_of self.now (map as_space text.now) ≡ None)
            (λ url. url_of self.now (map as_space text.now) ≡ Some url.now)) }
    {
        if memchr(b'\n', text.as_bytes()).is_none() {
            return Ok(self.url(text));
        }
        let spaced = with_spaces(alloc, text)?;
        Ok(self.url(spaced.as_str()))
    }
}
