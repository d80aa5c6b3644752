//! The order of all members, and the lists that come of it.

ghost use Rattle.std.specs.Prelude.{◌≡◌, ◌<◌, ◌^◌, length, [], false, true, filter, map, IfOk};
ghost use Rattle.std.specs.List.{enumerate_from};
ghost use Rattle.doc_order.specs.Documentation.{at_number, key_of, IsDocOf, IsSortedFilter};
ghost use Rattle.doc_order.specs.Slots.{is_exported_type};

use crate::lists::Lists;
use crate::members::{DocPackage, Member};
use crate::place::key_of;
use go_chars::is_exported;
use plain_data::Mem;
use std::alloc::Global;

/// The name by which each member is sorted, and its number.
fn entries<'a>(alloc: Global, members: &'a [Member]) -> Mem<Vec<(&'a str, u32)>>
    requires { length members.now < 2 ^ 32 }
    ensures { IfOk result (λ entries. map (λ it. (it.1, it.0.now)) entries.items
        ≡ enumerate_from 0 (map key_of members.now)) }
{
    let mut entries = Vec::new(alloc);
    for (place, member) in members.iter().enumerate() {
        entries.push((key_of(member), place as u32))?;
    }
    Ok(entries)
}

fn numbers_of(alloc: Global, entries: &[(&str, u32)]) -> Mem<Vec<u32>>
    ensures { IfOk result (λ numbers. numbers.items ≡ map (λ entry. entry.1) entries.now) }
{
    Ok(entries.iter().map(|entry| entry.1).collect(alloc)?)
}

/// The numbers of all members, sorted by name, ties in source order.
fn sorted_numbers(alloc: Global, members: &[Member]) -> Mem<Vec<u32>>
    requires { length members.now < 2 ^ 32 }
    ensures { IfOk result (λ numbers. IsSortedFilter (λ _. true) members.now numbers.items) }
{
    let mut entries = entries(alloc, members)?;
    entries.sort()?;
    numbers_of(alloc, entries.as_slice())
}

fn is_exported_type(members: &[Member], number: u32) -> bool
    ensures { result ≡ at_number is_exported_type false members.now number }
{
    match members.get(number as usize) {
        Some(Member::TypeDef { name }) => is_exported(name.as_str()),
        _ => false,
    }
}

/// Those of the numbers that are of exported types.
fn exported_types(alloc: Global, members: &[Member], numbers: &[u32]) -> Mem<Vec<u32>>
    ensures { IfOk result (λ types. types.items
        ≡ filter (at_number is_exported_type false members.now) numbers.now) }
{
    Ok(
        numbers
            .iter()
            .copied()
            .filter(|number| is_exported_type(members, *number))
            .collect(alloc)?,
    )
}

/// The name by which the member with a number is sorted.
fn key_at(members: &[Member], number: u32) -> &str
    ensures { result.now ≡ at_number key_of [] members.now number }
{
    match members.get(number as usize) {
        Some(member) => key_of(member),
        None => "",
    }
}

/// The names by which the members with these numbers are sorted.
fn keys_at<'a>(alloc: Global, members: &'a [Member], numbers: &[u32]) -> Mem<Vec<&'a str>>
    ensures { IfOk result (λ keys. map (λ it. it.now) keys.items
        ≡ map (at_number key_of [] members.now) numbers.now) }
{
    let mut keys = Vec::new(alloc);
    for number in numbers {
        keys.push(key_at(members, *number))?;
    }
    Ok(keys)
}

/// The documentation of a package with these members, which stand in source order: what it lists,
/// where and in which order (after Go's package `go/doc`).
///
/// All members are sorted once, and then each is put at the end of the list in which it stands.
///
/// # Errors
///
/// `NoMemory` where an allocation is refused.
pub fn order(alloc: Global, members: &[Member]) -> Mem<DocPackage>
    requires few { length members.now < 2 ^ 32 }
    ensures { IfOk result (λ doc. IsDocOf members.now doc) }
{
    let numbers = sorted_numbers(alloc, members)?;
    let types = exported_types(alloc, members, numbers.as_slice())?;
    let names = keys_at(alloc, members, types.as_slice())?;
    let mut lists = Lists::new(alloc, types.as_slice())?;
    lists.fill(alloc, members, names.as_slice(), numbers.as_slice())?;
    Ok(lists.into_package())
}
