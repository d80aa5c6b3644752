//! The types, signatures and type parameters that tokens spell (The Go Programming Language
//! Specification, "Types", "Type parameter declarations").
//!
//! ```
//! let scanned = scan(alloc, source)?;
//! let all = TokenRange { first: 0, after };
//! match parse_type(alloc, &scanned, source, all)? {
//!     Some(TypeExpr::Pointer(_)) => .., // `*T`
//!     None => .., // the tokens spell no type
//! }
//! ```
#![tactic(auto)]

mod cut;
mod grammar;
mod laws;
mod mark;
mod matching;
mod members;
mod parse;
mod reader;
mod run;
mod signature;
mod type_params;
mod words;

pub use grammar::{declared_in, entries_in, signature_in, type_in, type_params_in};
pub use laws::{
    cut_where_enclosed, declared_once, levels_agree, signature_spelled_once, spelled_once,
    type_params_spelled_once,
};
pub use mark::{mark_at, text_of, word_at};
pub use parse::parse_type;
pub use words::{MatchedWords, Words, matched_words};
