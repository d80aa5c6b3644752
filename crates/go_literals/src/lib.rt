//! What integer and rune literals of Go denote, and how many bytes runes and strings have (The Go
//! Programming Language Specification, "Integer literals", "Rune literals", "String literals").
//!
//! ```
//! let number = integer_value(b"0x_FF");
//! let code = rune_value(b"'\\n'");
//! let length = string_length(b"after the opening quote\" and more");
//! ```
#![tactic(auto)]

mod digits;
mod escape;
mod extent;
mod integer;
mod rune;

pub use extent::{raw_length, rune_length, string_length};
pub use integer::integer_value;
pub use rune::rune_value;
