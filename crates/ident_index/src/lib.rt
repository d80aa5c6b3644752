//! The identifiers of Go files: where each stands and what it names there, and all of them by their
//! names.
//!
//! `specs/Postings.antt` says what the table of names holds.
//!
//! ```
//! let hits = hits_of(alloc, source, &scanned, &file, number)?;
//! let postings = Postings::build(alloc, &[HitFile { source, hits }])?;
//! for hit in postings.find("Reader", &mut steps) {
//!     // hit.file, hit.offset, hit.line, hit.kind
//! }
//! ```
#![tactic(auto)]

mod declarations;
mod entry;
mod groups;
mod hit;
mod hits;
mod laws;
mod names;
mod postings;
mod search;
mod steps;

pub use hit::{Hit, HitFile, HitKind};
pub use hits::hits_of;
pub use laws::{
    hits_are_counted, hits_of_a_name, hits_of_a_posting, hits_rise, names_of_hits, one_table,
};
pub use postings::Postings;
pub use steps::Steps;
