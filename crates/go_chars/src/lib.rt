//! The letters, digits and names of Go (The Go Programming Language Specification, "Letters and
//! digits", "Identifiers", "Keywords" and "Exported identifiers").
//!
//! ```
//! is_letter('_') // true
//! is_digit('7') // true
//! is_exported("Reader") // true
//! is_name("func") // false: a keyword
//! ```
#![tactic(auto)]

mod category;
mod name;

pub use category::{is_digit, is_letter};
pub use name::{is_exported, is_keyword, is_name};
