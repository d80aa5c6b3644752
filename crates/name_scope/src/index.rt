//! Names with their first places.

ghost use Rattle.std.specs.Prelude.{◌≡◌, IfOk, map, string_bytes};
ghost use Rattle.std.specs.Option.{option_copied};
ghost use Rattle.name_scope.specs.Scopes.{first_place};
ghost use Rattle.name_scope.specs.Tables.{IsIndex};

use plain_data::{Mem, Txt};
use std::alloc::Global;
use std::collections::BTreeMap;

/// Names, each with its first place in a list.
pub(crate) type Index = BTreeMap<String, usize>;

/// The first places of names in a list.
pub(crate) fn index_of(alloc: Global, mut names: Vec<String>) -> Mem<Index>
    ensures { IfOk result (λ places. IsIndex places (map string_bytes names.items)) }
{
    let mut places = BTreeMap::new(alloc);
    // From the last to the first, so that the first place of a name stays.
    while let Some(name) = names.pop() {
        let place = names.len();
        places.insert(name, place)?;
    }
    Ok(places)
}

pub(crate) fn copies_of(alloc: Global, texts: &[Txt]) -> Mem<Vec<String>>
    ensures { IfOk result (λ copies. map string_bytes copies.items ≡ texts.now) }
{
    let mut copies = Vec::new(alloc);
    for text in texts {
        copies.push(String::from_str(alloc, text.as_str())?)?;
    }
    Ok(copies)
}
