//! Laws of the documentation's definition, which no caller has to run.

ghost use Rattle.std.specs.Prelude.{◌≡◌, ℕ, false, List, None, Option, Some, IsTrue};
ghost use Rattle.doc_order.specs.declared.members.DocPackage.{DocPackage};
ghost use Rattle.doc_order.specs.declared.members.Kind.{Kind};
ghost use Rattle.doc_order.specs.declared.members.Kind.TheVariants.{Methods, Types};
ghost use Rattle.doc_order.specs.declared.members.Member.{Member};
ghost use Rattle.doc_order.specs.Documentation.{IsDocOf};
ghost use Rattle.doc_order.specs.Documentation.{at_number, is_shown, kind_of, place_of, stands_in};
ghost use Rattle.doc_order.specs.Documentation.{type_of};

use crate::members::Member;

/// Each member that is shown stands in exactly one list: that of its kind in its place, which is
/// the package or a type that is itself listed. Methods stand under types alone. So each member
/// that is shown is listed, and once, since the numbers of a list are sorted strictly ascending.
pub fn shown_members_stand_in_one_list(members: &[Member], member: &Member)
    ensures somewhere { let types = type_of members.now in
        IsTrue (is_shown types member.now)
        → IsTrue (stands_in types (kind_of member.now) (place_of types member.now) member.now) }
    ensures once { let types = type_of members.now in
        (kind : Kind) (place : Option ℕ) → IsTrue (stands_in types kind place member.now)
        → IsTrue (is_shown types member.now) × (kind ≡ kind_of member.now)
        × (place ≡ place_of types member.now) }
    ensures methods { ¬ IsTrue (stands_in (type_of members.now) Methods None member.now) }
    ensures listed { let types = type_of members.now in
        (number : ℕ) → place_of types member.now ≡ Some number
        → IsTrue (at_number (stands_in types Types None) false members.now number) }
{}

/// Members have at most one documentation, as the clause says for all lists of members. The call
/// does nothing.
pub fn one_documentation()
    ensures { (members : List Member) (doc other : DocPackage) → IsDocOf members doc
        → IsDocOf members other → doc ≡ other }
{}
