//! The links in the text of a comment: defined links, doc links, addresses, and quotes (Go Doc
//! Comments, "Links" and "Doc links").
//!
//! ```
//! let definitions = Definitions::new(alloc, links)?;
//! for part in definitions.inlines(alloc, "See [Go].", &names)?.as_slice() {
//!     if let Inline::Link { text, href } = part {}
//! }
//! ```
#![tactic(auto)]

mod address;
mod bracket;
mod definitions;
mod found;
mod laws;
mod mark;
mod names;
mod part;
mod parts;
mod reading;
mod text;

pub use definitions::Definitions;
pub use laws::text_has_one_list_of_inlines;
pub use names::Names;
pub use part::Inline;
pub use reading::inline;
