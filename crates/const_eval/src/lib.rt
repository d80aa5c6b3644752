//! The values of Go constants that are integers, and the lengths of arrays that they give (The Go
//! Programming Language Specification, "Constant expressions", "Array types").
//!
//! ```
//! let consts = Constants::make(alloc, facts.as_slice())?;
//! match length(alloc, source, &scanned, run, &consts)? {
//!     Length::Known(number) => {}
//!     Length::AsText(text) => {}
//! }
//! ```
#![tactic(auto)]

mod array;
mod array_length;
mod constants;
mod laws;
mod lexeme;
mod literal;
mod machine;
mod names;
mod operator;
mod value;

pub use array::Length;
pub use array_length::length;
pub use constants::{ConstFact, Constants};
pub use laws::one_tree_for_each_run;
