//! Exported names, and the exported types of a package by their names.

ghost use Rattle.std.specs.Prelude.{◌≡◌, map, IsSorted};
ghost use Rattle.std.specs.Cmp.Lexicographic.{slice_cmp};
ghost use Rattle.std.specs.Ordering.{nat_cmp};
ghost use Rattle.std.specs.List.{list_any};
ghost use Rattle.doc_order.specs.Documentation.{is_exported_name};
ghost use Rattle.doc_order.specs.Slots.{slot_of};

use crate::members::SpecFact;
use go_chars::is_exported;

/// Whether a specification declares an exported name.
pub fn has_exported_name(spec: &SpecFact) -> bool
    ensures { result ≡ list_any is_exported_name spec.now.names }
{
    spec.names
        .as_slice()
        .iter()
        .any(|name| is_exported(name.as_str()))
}

/// Whether one of the specifications declares an exported name.
pub fn have_exported_name(specs: &[SpecFact]) -> bool
    ensures { result ≡ list_any (λ spec. list_any is_exported_name spec.names) specs.now }
{
    specs.iter().any(|spec| has_exported_name(spec))
}

/// The first place of a name among sorted names, or `None` where it isn't there.
pub fn slot_of(names: &[&str], name: &str) -> Option<usize>
    requires { IsSorted (λ a b. slice_cmp nat_cmp a.now b.now) names.now }
    ensures { result ≡ slot_of (map (λ it. it.now) names.now) name.now }
{
    let place = names.partition_point(|other| *other < name);
    match names.get(place) {
        Some(other) if *other == name => Some(place),
        _ => None,
    }
}
