//! The packages that accepted files make up: one for each folder (The Go Programming Language
//! Specification, "Packages").
//!
//! [`group`] returns exactly what `specs/Groups.antt` says.
//!
//! ```
//! let grouped = group(alloc, files, "example.com/m")?;
//! for package in grouped.packages.as_slice() {
//!     // package.path, package.name, package.files, package.tests
//! }
//! ```
#![tactic(auto)]

mod facts;
mod folders;
mod grouping;
mod laws;
mod names;

pub use facts::{FileFact, Grouped, Package};
pub use grouping::group;
pub use laws::one_grouping;
