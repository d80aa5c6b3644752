//! What a request asks for: its target, read by the table of routes.
//!
//! [`Router::target`] returns exactly `target_of` of `specs/Targets.antt`.
//!
//! ```
//! let router = Router::new(alloc)?;
//! match router.target(alloc, &request)? {
//!     Target::PackagePage(path) => ..,
//!     Target::Search { name, page } => ..,
//!     Target::NotFound => ..,
//! }
//! ```
#![tactic(auto)]

mod paths;
mod query;
mod router;
mod target;

pub use router::Router;
pub use target::Target;
