//! What is shown of a package, and where it stands.

ghost use Rattle.std.specs.Prelude.{◌≡◌, map, IfOk, IsSorted, filter_map};
ghost use Rattle.std.specs.Cmp.Lexicographic.{slice_cmp};
ghost use Rattle.std.specs.Ordering.{nat_cmp};
ghost use Rattle.doc_order.specs.Documentation.{is_shown, kind_of, key_of, place_of, only};
ghost use Rattle.doc_order.specs.Slots.{slot_of};

use crate::members::{Kind, Member};
use crate::names::{have_exported_name, slot_of};
use crate::values::{main_base, name_of_specs};
use go_chars::is_exported;
use plain_data::{Mem, Txt};
use std::alloc::Global;

/// Of which kind a member is.
pub fn kind_of(member: &Member) -> Kind
    ensures { result ≡ kind_of member.now }
{
    match member {
        Member::Value { constant: true, .. } => Kind::Constants,
        Member::Value { .. } => Kind::Variables,
        Member::TypeDef { .. } => Kind::Types,
        Member::Func { .. } => Kind::Functions,
        Member::Method { .. } => Kind::Methods,
    }
}

/// The name by which a member is sorted.
pub fn key_of(member: &Member) -> &str
    ensures { result.now ≡ key_of member.now }
{
    match member {
        Member::Value { specs, .. } => name_of_specs(specs.as_slice()),
        Member::TypeDef { name } => name.as_str(),
        Member::Func { name, .. } => name.as_str(),
        Member::Method { name, .. } => name.as_str(),
    }
}

/// Whether a member is shown, in a package whose exported types have these names, sorted.
pub fn is_shown(names: &[&str], member: &Member) -> bool
    requires { IsSorted (λ a b. slice_cmp nat_cmp a.now b.now) names.now }
    ensures { result ≡ is_shown (slot_of (map (λ it. it.now) names.now)) member.now }
{
    match member {
        Member::Value { specs, .. } => have_exported_name(specs.as_slice()),
        Member::TypeDef { name } => is_exported(name.as_str()),
        Member::Func { name, .. } => is_exported(name.as_str()),
        Member::Method { name, base } => {
            is_exported(name.as_str()) && slot_of(names, base.as_str()).is_some()
        }
    }
}

/// The slot of the one of these base names that has one. `None` where none or several have one.
fn slot_of_results(names: &[&str], results: &[Txt]) -> Option<usize>
    requires { IsSorted (λ a b. slice_cmp nat_cmp a.now b.now) names.now }
    ensures { result ≡ only (filter_map (slot_of (map (λ it. it.now) names.now)) results.now) }
{
    let mut found = None;
    for base in results {
        if let Some(slot) = slot_of(names, base.as_str()) {
            if found.is_some() {
                return None;
            }
            found = Some(slot);
        }
    }
    found
}

/// The slot of the type under which a member stands. `None` where it stands under none.
pub fn place_of(alloc: Global, names: &[&str], member: &Member) -> Mem<Option<usize>>
    requires { IsSorted (λ a b. slice_cmp nat_cmp a.now b.now) names.now }
    ensures { IfOk result (λ slot.
        slot ≡ place_of (slot_of (map (λ it. it.now) names.now)) member.now) }
{
    match member {
        Member::Value { constant, specs } => {
            match main_base(alloc, *constant, specs.as_slice())? {
                Some(base) => Ok(slot_of(names, base)),
                None => Ok(None),
            }
        }
        Member::TypeDef { .. } => Ok(None),
        Member::Func { results, .. } => Ok(slot_of_results(names, results.as_slice())),
        Member::Method { base, .. } => Ok(slot_of(names, base.as_str())),
    }
}
