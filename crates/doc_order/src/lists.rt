//! The lists of the documentation, and how they are filled.

ghost use Rattle.std.specs.Prelude.{◌≡◌, [], fold, map, IfOk, IsSorted, OnOk};
ghost use Rattle.std.specs.Cmp.Lexicographic.{slice_cmp};
ghost use Rattle.std.specs.Ordering.{nat_cmp};
ghost use Rattle.doc_order.specs.Slots.{bare_type, changed_at, slot_of, with_member_at};
ghost use Rattle.doc_order.specs.Slots.{with_number, with_number_in, with_number_of_package};

use crate::members::{DocPackage, DocType, Kind, Member};
use crate::place::{is_shown, kind_of, place_of};
use plain_data::{Mem, Seq};
use std::alloc::Global;
use std::marker::Model;

/// The lists of a package while they are filled. Each type has a slot.
#[derive(Drop)]
pub struct Lists {
    consts: Seq<u32>,
    vars: Seq<u32>,
    funcs: Seq<u32>,
    types: Vec<DocType>,
}

impl Model for Lists {
    ghost use Rattle.doc_order.specs.Slots as slots;

    ghost Value = { slots.Lists };

    ghost view = { λ it. record {
      consts = it.consts;
      vars = it.vars;
      funcs = it.funcs;
      types = it.types.items;
    } };
}

/// A type under which nothing stands.
fn bare_type(alloc: Global, number: u32) -> DocType
    ensures { result ≡ bare_type number }
{
    DocType {
        member: number,
        consts: Seq::new(alloc),
        vars: Seq::new(alloc),
        factories: Seq::new(alloc),
        methods: Seq::new(alloc),
    }
}

/// The types with these numbers, under which nothing stands.
fn bare_types(alloc: Global, numbers: &[u32]) -> Mem<Vec<DocType>>
    ensures { IfOk result (λ docs. docs.items ≡ map bare_type numbers.now) }
{
    let mut docs = Vec::new(alloc);
    for number in numbers {
        docs.push(bare_type(alloc, *number))?;
    }
    Ok(docs)
}

/// Puts a number at the end of the list of its kind under a type.
fn put_under(doc: &mut DocType, kind: Kind, number: u32) -> Mem<()>
    ensures { OnOk result (doc.new ≡ with_number doc.old kind number) }
{
    match kind {
        Kind::Constants => doc.consts.push(number),
        Kind::Variables => doc.vars.push(number),
        Kind::Functions => doc.factories.push(number),
        Kind::Types => Ok(()),
        Kind::Methods => doc.methods.push(number),
    }
}

/// Puts a number at the end of the list of its kind under the type of a slot.
fn put_in_slot(types: &mut [DocType], slot: usize, kind: Kind, number: u32) -> Mem<()>
    ensures { OnOk result
        (types.new ≡ changed_at (λ doc. with_number doc kind number) types.old slot) }
{
    if slot < types.len() {
        put_under(&mut types[slot], kind, number)
    } else {
        Ok(())
    }
}

impl Lists {
    /// Empty lists, with a slot for each type that has one of these numbers.
    pub fn new(alloc: Global, types: &[u32]) -> Mem<Lists>
        ensures { IfOk result (λ lists. lists ≡ record {
          consts = [];
          vars = [];
          funcs = [];
          types = map bare_type types.now;
        }) }
    {
        Ok(Lists {
            consts: Seq::new(alloc),
            vars: Seq::new(alloc),
            funcs: Seq::new(alloc),
            types: bare_types(alloc, types)?,
        })
    }

    /// Puts a number at the end of the list of its kind that stands under no type.
    fn put_in_package(&mut self, kind: Kind, number: u32) -> Mem<()>
        ensures { OnOk result (self.new ≡ with_number_of_package self.old kind number) }
    {
        match kind {
            Kind::Constants => self.consts.push(number),
            Kind::Variables => self.vars.push(number),
            Kind::Functions => self.funcs.push(number),
            Kind::Types => Ok(()),
            Kind::Methods => Ok(()),
        }
    }

    /// Puts a number at the end of the list of its kind in this place.
    fn put(&mut self, kind: Kind, place: Option<usize>, number: u32) -> Mem<()>
        ensures { OnOk result (self.new ≡ with_number_in self.old kind place number) }
    {
        match place {
            None => self.put_in_package(kind, number),
            Some(slot) => put_in_slot(self.types.as_mut_slice(), slot, kind, number),
        }
    }

    /// Puts the member with a number where it stands, if it is shown. The names of the types in
    /// their slots are sorted.
    fn put_member(
        &mut self,
        alloc: Global,
        members: &[Member],
        names: &[&str],
        number: u32,
    ) -> Mem<()>
        requires { IsSorted (λ a b. slice_cmp nat_cmp a.now b.now) names.now }
        ensures { OnOk result (self.new ≡ with_member_at members.now
            (slot_of (map (λ it. it.now) names.now)) self.old number) }
    {
        match members.get(number as usize) {
            Some(member) if is_shown(names, member) => {
                self.put(kind_of(member), place_of(alloc, names, member)?, number)
            }
            _ => Ok(()),
        }
    }

    /// Puts the members with these numbers, one after the other, where they stand.
    pub fn fill(
        &mut self,
        alloc: Global,
        members: &[Member],
        names: &[&str],
        numbers: &[u32],
    ) -> Mem<()>
        requires { IsSorted (λ a b. slice_cmp nat_cmp a.now b.now) names.now }
        ensures { OnOk result (self.new ≡ fold (with_member_at members.now
            (slot_of (map (λ it. it.now) names.now))) self.old numbers.now) }
    {
        for number in numbers {
            self.put_member(alloc, members, names, *number)?;
        }
        Ok(())
    }

    /// The documentation that has these lists.
    pub fn into_package(self) -> DocPackage
        ensures { result ≡ record {
          consts = self.consts;
          vars = self.vars;
          funcs = self.funcs;
          types = self.types;
        } }
    {
        let Lists {
            consts,
            vars,
            funcs,
            types,
        } = self;
        DocPackage {
            consts,
            vars,
            funcs,
            types: Seq::from_vec(types),
        }
    }
}
