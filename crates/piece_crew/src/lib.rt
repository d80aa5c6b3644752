//! Workers that take the jobs of a list one after another, all from one claim word, and give their
//! outputs in the order of the jobs.
//!
//! ```
//! let outputs = run_pieces(rt, alloc, &job, 4)?;
//! for (number, output) in outputs.as_slice().iter().enumerate() {
//!     // output is what job.work(number) may return
//! }
//! ```
#![tactic(auto)]

mod claims;
mod crew;
mod group;
mod job;
mod laws;
mod order;
mod rule;

pub use claims::{ClaimSeat, Claims};
pub use crew::run_pieces;
pub use job::Job;
pub use laws::outputs_do_not_depend_on_the_workers;
pub use rule::{MAX_TOTAL, MAX_WORKERS};
