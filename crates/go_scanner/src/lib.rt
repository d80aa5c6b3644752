//! The tokens and comments of a Go source (The Go Programming Language Specification, "Lexical
//! elements").
//!
//! ```
//! let scanned = scan(alloc, source)?;
//! for token in scanned.tokens.as_slice() {
//!     let place = position_of(scanned.lines.as_slice(), token.span.start);
//!     // place.line and place.column count from 1
//! }
//! ```
#![tactic(auto)]

mod class;
mod comment;
mod fault;
mod front;
mod laws;
mod lines;
mod mark;
mod number;
mod position;
mod run;
mod scanner;
mod shape;
mod text;
mod word;

pub use laws::one_reading_or_fault;
pub use position::{Position, position_of};
pub use scanner::scan;
pub use word::front_word;
