//! Plain data of Go sources, and the definitions that say what their bytes mean (The Go Programming
//! Language Specification, "Lexical elements", "Types", "Declarations and scope").
//!
//! `specs/` holds these definitions. The types of `plain_data` are exported from here too.
//!
//! ```
//! let span = Span { start: 8, end: 9 };
//! let range = TokenRange { first: 0, after: 2 };
//! let fault = Fault::BadToken(17);
//! let text = format!(in alloc; "{fault}")?;
//! ```
#![tactic(auto)]

mod config;
mod declaration;
mod fault;
mod shared;
mod token;
mod tree;
mod word;

pub use config::{Config, copy_config};
pub use declaration::{
    Decl, File, FuncDecl, Group, ImportName, ImportSpec, Receiver, TypeParam, TypeSpec, ValueSpec,
};
pub use fault::{Fault, Refused, copy_fault};
pub use plain_data::{Bytes, Failed, IoFail, Mem, NoMemory, Seq, Txt};
pub use shared::Shared;
pub use token::{Comment, MAX_SOURCE_BYTES, Scanned, Span, Token, TokenKind, TokenRange};
pub use tree::{ChanDir, Element, Field, MAX_TYPE_LEVELS, Param, Signature, Term, TypeExpr};
pub use word::{Mark, Word};
