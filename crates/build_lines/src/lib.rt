//! Which files of a tree are read for a system, an architecture and the tags of a build (The go
//! command, "Build constraints").
//!
//! [`admits`] gives exactly the admission of `specs/Admissions.antt`.
//!
//! ```
//! match admits(alloc, "x_linux.go", source, &scanned, &config)? {
//!     Admission::Admitted => {}
//!     Admission::Ignored(why) => {}
//!     Admission::BadBuildLine(line) => {}
//! }
//! ```
#![tactic(auto)]

mod admission;
mod build_line;
mod cutting;
mod evaluation;
mod expression;
mod file_name;
mod frame;
mod judge;
mod laws;
mod part;
mod symbol;
mod tag;

pub use admission::{Admission, Why};
pub use judge::admits;
pub use laws::one_expression;
