//! The HTML of a doc comment: each block by its kind, with the links of its text (Go Doc Comments;
//! the HTML standard).
//!
//! ```
//! let blocks = comment_blocks::blocks(alloc, "# Title\n\nText.")?;
//! let page = html(alloc, blocks.as_slice(), &names)?;
//! // <h4>Title</h4>
//! // <p>Text.</p>
//! ```
#![tactic(auto)]

mod block;
mod item;
mod laws;
mod line;
mod whole;

pub use laws::{escaped_texts_are_harmless, html_is_tags_and_escaped_texts};
pub use whole::html;
