//! The hits of files, gathered by their names.

ghost use Rattle.std.specs.Prelude.{◌≡◌, ◌++◌, [], ◌∷◌, ℕ, ◌||◌, List, All, IfOk, OnOk, IsUtf8};
ghost use Rattle.std.specs.Prelude.{drop, is_some, if◌then◌else◌, map};
ghost use Rattle.std.specs.Str.{IsCharBoundary, bytes_eq};
ghost use Rattle.ident_index.specs.Postings.{HasNames, NamedHit, name_at, named_of, named_of_all};
ghost use Rattle.ident_index.specs.Postings.{source_and_hits};
ghost use Rattle.ident_index.specs.Tables.{HasGroups, has_group, hits_in};

use crate::hit::{Hit, HitFile};
use go_scanner::front_word;
use plain_data::Mem;
use std::alloc::Global;
use std::collections::BTreeMap;
use std::str;

/// The hits of each name, by the bytes of the names.
pub(crate) type Groups<'a> = BTreeMap<&'a str, Vec<Hit>>;

/// The name that stands at an offset of a text.
fn name_at(text: &str, offset: u32) -> &str
    requires { IsCharBoundary text.now offset }
    ensures { result.now ≡ name_at text.now offset }
{
    front_word(&text[offset as usize..])
}

/// Adds a hit at the end of those of its name.
fn add_hit<'a>(groups: &mut Groups<'a>, name: &'a str, hit: Hit) -> Mem<()>
    ensures hits { OnOk result ((q : List ℕ) → hits_in groups.new q
        ≡ hits_in groups.old q ++ (if bytes_eq q name.now then hit ∷ [] else [])) }
    ensures names { OnOk result ((q : List ℕ) → has_group groups.new q
        ≡ (has_group groups.old q || bytes_eq q name.now)) }
{
    groups.entry(name)?.or_default().push(hit)?;
    Ok(())
}

/// Adds the hits of a file.
fn add_file<'a>(groups: &mut Groups<'a>, source: &'a [u8], hits: &[Hit]) -> Mem<()>
    requires { HasNames source.now hits.now }
    ensures { OnOk result ((before : List NamedHit) → HasGroups groups.old before
        → HasGroups groups.new (before ++ named_of source.now hits.now)) }
{
    let Ok(text) = str::from_utf8(source) else {
        unreachable!()
    };
    for hit in hits {
        add_hit(groups, name_at(text, hit.offset), *hit)?;
    }
    Ok(())
}

/// The hits of all files by their names.
pub(crate) fn group_hits<'a>(alloc: Global, files: &[HitFile<'a>]) -> Mem<Groups<'a>>
    requires { All (λ file. HasNames file.source.now file.hits.now) files.now }
    ensures { IfOk result
        (λ groups. HasGroups groups (named_of_all (map source_and_hits files.now))) }
{
    let mut groups = BTreeMap::new(alloc);
    for file in files {
        add_file(&mut groups, file.source, file.hits)?;
    }
    Ok(groups)
}
