//! The files that tokens spell: chunks between semicolons, and their declarations (The Go
//! Programming Language Specification, "Source file organization", "Declarations and scope").
//!
//! ```
//! let scanned = scan(alloc, source)?;
//! let file = parse_file(alloc, source, &scanned)?;
//! for decl in file.decls.as_slice() {
//!     if let Decl::Func(function) = decl { .. }
//! }
//! ```
#![tactic(auto)]

mod body;
mod chunk;
mod chunks;
mod clause;
mod cutter;
mod declaration;
mod declarations;
mod function;
mod group;
mod import;
mod laws;
mod nesting;
mod parse;
mod read;
mod receiver;
mod type_spec;
mod value;

pub use chunk::{Chunk, Cut};
pub use chunks::chunks_of;
pub use laws::{declaration_spelled_once, one_file_or_fault};
pub use nesting::one_unbalanced_bracket;
pub use parse::parse_file;
