//! Doc comments: the group of comments that documents a declaration, its text, and the blocks that
//! the text consists of (Go Doc Comments).
//!
//! ```
//! if let Some(range) = doc_group(&scanned, line) {
//!     let comments = &scanned.comments.as_slice()[range.first as usize..range.after as usize];
//!     let text = comment_text(alloc, source, comments)?;
//!     let blocks = blocks(alloc, text.as_str())?;
//! }
//! ```
#![tactic(auto)]

mod blank;
mod block;
pub mod cutting;
mod group;
mod kinds;
mod laws;
mod line;
mod list;
mod plain;
mod text;

pub use block::{Block, Item, LinkDef};
pub use group::doc_group;
pub use kinds::blocks;
pub use laws::{lines_have_one_cutting, one_doc_group};
pub use text::comment_text;
