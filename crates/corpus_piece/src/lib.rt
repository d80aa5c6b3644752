//! What becomes of one file of a tree: excluded, its fault, or what was parsed in it.
//!
//! [`make_piece`] returns exactly the outcome of `specs/Outcomes.antt`.
//!
//! ```
//! let piece = make_piece(alloc, "io/io.go", &entry, &config, number)?;
//! match piece.outcome() {
//!     Outcome::Accepted(parsed) => ..,
//!     Outcome::Ignored(why) => ..,
//!     Outcome::Faulty(fault) => ..,
//! }
//! ```
#![tactic(auto)]

mod laws;
mod make;
mod outcome;
mod piece;

pub use laws::one_outcome;
pub use make::make_piece;
pub use outcome::{Outcome, Parsed};
pub use piece::Piece;
