//! The order of a package's documentation: which declarations it lists, where, and in which order
//! (after Go's package `go/doc`).
//!
//! `specs/Documentation.antt` says what each list holds. The members stand in source order.
//!
//! ```
//! let members = [Member::TypeDef { name }, Member::Func { name: maker, results }];
//! let doc = order(alloc, &members)?;
//! for it in doc.types.as_slice() {
//!     let (member, factories) = (it.member, it.factories.as_slice());
//! }
//! ```
#![tactic(auto)]

mod laws;
mod listing;
mod lists;
mod members;
mod names;
mod place;
mod values;

pub use laws::{one_documentation, shown_members_stand_in_one_list};
pub use listing::order;
pub use members::{DocPackage, DocType, Kind, Member, SpecFact};
