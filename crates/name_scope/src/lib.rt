//! What the name of a type leads to: a declared type, a predeclared one, or one outside (The Go
//! Programming Language Specification, "Declarations and scope", "Qualified identifiers").
//!
//! [`resolve_name`] gives exactly `target_of` of `specs/Scopes.antt`.
//!
//! ```
//! let world = World::make(alloc, packages)?;
//! match resolve_name(alloc, &world, 0, 0, "io", "Reader")? {
//!     Target::Declared { package, index } => {}
//!     Target::Predeclared(_) | Target::Outside { .. } => {}
//! }
//! ```
#![tactic(auto)]

mod index;
mod locals;
mod packages;
mod places;
mod predeclared;
mod resolving;
mod tables;
mod versions;
mod world;

pub use packages::{Import, Imports, NamedPackage, Target};
pub use resolving::resolve_name;
pub use world::World;
