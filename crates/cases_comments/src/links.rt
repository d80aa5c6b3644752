//! What the links of all cases lead to.

ghost use Rattle.std.specs.Prelude.{string_bytes};
ghost use Rattle.std.specs.BTreeMap.{get_by_text};
ghost use Rattle.std.specs.Option.{option_map};

use comment_blocks::LinkDef;
use comment_links::Names;
use plain_data::{Mem, Seq, Txt};
use std::alloc::Global;
use std::collections::BTreeMap;

/// Names whose addresses stand in a map.
#[derive(Drop)]
pub struct NameMap {
    addresses: BTreeMap<String, String>,
}

impl Names for NameMap {
    ghost address_of = { λ names body. option_map string_bytes (get_by_text names.addresses body) };

    fn address(&self, alloc: Global, body: &str) -> Mem<Option<Txt>> {
        match self.addresses.get(body) {
            None => Ok(None),
            Some(address) => Ok(Some(Txt::from_str(alloc, address.as_str())?)),
        }
    }
}

/// The names that doc links may have.
pub fn names(alloc: Global) -> Mem<NameMap> {
    let mut addresses = BTreeMap::new(alloc);
    for (body, address) in [
        ("Name", "#Name"),
        ("T.M", "#T.M"),
        ("io", "/pkg/io/"),
        ("*Name", "#star"),
        ("two\nlines", "#two"),
        ("a[b", "#inner"),
        ("Go", "#Go"),
        ("R", "#R&\""),
    ] {
        addresses.insert(
            String::from_str(alloc, body)?,
            String::from_str(alloc, address)?,
        )?;
    }
    Ok(NameMap { addresses })
}

/// The definitions of links that hold for `inline` and `long`.
pub fn definitions(alloc: Global) -> Mem<Seq<LinkDef>> {
    let mut links = Seq::new(alloc);
    for (text, url) in [
        ("Go", "https://go.dev"),
        ("Go", "https://second"),
        ("two words", "https://two"),
        ("http://x", "https://y"),
        ("``", "https://quotes"),
    ] {
        let text = Txt::from_str(alloc, text)?;
        let url = Txt::from_str(alloc, url)?;
        links.push(LinkDef { text, url })?;
    }
    Ok(links)
}
