//! Declarations of constants and variables: by which name they are sorted, and under which they
//! could stand.

ghost use Rattle.std.specs.Prelude.{◌≡◌, count_by, filter, find, map, not, IfOk, MatchOption};
ghost use Rattle.std.specs.Str.{bytes_eq};
ghost use Rattle.std.specs.Option.{option_copied};
ghost use Rattle.std.specs.List.{list_all, list_any};
ghost use Rattle.doc_order.specs.Documentation.{bases_of, common_name, is_empty, is_exported_name};
ghost use Rattle.doc_order.specs.Documentation.{main_base, name_of_specs, first_name};

use crate::members::SpecFact;
use crate::names::has_exported_name;
use plain_data::{Mem, Txt};
use std::alloc::Global;

/// How many specifications have an exported name.
fn count_exported(specs: &[SpecFact]) -> usize
    ensures { result ≡ count_by (λ spec. list_any is_exported_name spec.names) specs.now }
{
    specs.iter().filter(|spec| has_exported_name(spec)).count()
}

/// The first specification with an exported name.
fn first_exported(specs: &[SpecFact]) -> Option<&SpecFact>
    ensures { option_copied result
        ≡ find (λ spec. list_any is_exported_name spec.names) specs.now }
{
    specs.iter().find(|spec| has_exported_name(spec))
}

/// The first of the names, or the empty text where there isn't one.
fn first_name(names: &[Txt]) -> &str
    ensures { result.now ≡ first_name names.now }
{
    match names.first() {
        Some(name) => name.as_str(),
        None => "",
    }
}

/// The first name of the one specification with an exported name, else the empty name.
pub fn name_of_specs(specs: &[SpecFact]) -> &str
    ensures { result.now ≡ name_of_specs specs.now }
{
    if count_exported(specs) != 1 {
        return "";
    }
    match first_exported(specs) {
        Some(spec) => first_name(spec.names.as_slice()),
        None => "",
    }
}

/// The base name of each specification with an exported name, empty for one that has none.
fn bases_of<'a>(alloc: Global, constant: bool, specs: &'a [SpecFact]) -> Mem<Vec<&'a str>>
    ensures { IfOk result (λ bases. map (λ it. it.now) bases.items ≡ bases_of constant specs.now) }
{
    let mut bases = Vec::new(alloc);
    let mut before = "";
    for spec in specs {
        if !(constant && spec.empty) {
            before = spec.base.as_str();
        }
        if has_exported_name(spec) {
            bases.push(before)?;
        }
    }
    Ok(bases)
}

/// The names that aren't empty.
fn without_empty<'a>(alloc: Global, names: &[&'a str]) -> Mem<Vec<&'a str>>
    ensures { IfOk result (λ named. map (λ it. it.now) named.items
        ≡ filter (λ name. not (is_empty name)) (map (λ it. it.now) names.now)) }
{
    let mut named = Vec::new(alloc);
    for name in names {
        if !name.is_empty() {
            named.push(*name)?;
        }
    }
    Ok(named)
}

fn are_all(names: &[&str], name: &str) -> bool
    ensures { result ≡ list_all (λ other. bytes_eq name.now other.now) names.now }
{
    names.iter().all(|other| name == *other)
}

/// The name that all of these are.
#[tactic(auto, using(crate::proofs::ListLemmas::all_mapped))]
fn common_name<'a>(names: &[&'a str]) -> Option<&'a str>
    ensures { MatchOption result (common_name (map (λ it. it.now) names.now) ≡ None)
        (λ name. common_name (map (λ it. it.now) names.now) ≡ Some name.now) }
{
    let (first, rest) = names.split_first()?;
    if are_all(rest, first) {
        Some(*first)
    } else {
        None
    }
}

/// The only base name of the specifications with an exported name, where three quarters of these,
/// rounded down, have it.
pub fn main_base<'a>(alloc: Global, constant: bool, specs: &'a [SpecFact]) -> Mem<Option<&'a str>>
    ensures { IfOk result (λ base.
        MatchOption base (main_base (bases_of constant specs.now) ≡ None)
        (λ name. main_base (bases_of constant specs.now) ≡ Some name.now)) }
{
    let bases = bases_of(alloc, constant, specs)?;
    let named = without_empty(alloc, bases.as_slice())?;
    if named.len() < bases.len() - bases.len().div_ceil(4) {
        return Ok(None);
    }
    Ok(common_name(named.as_slice()))
}
