//! Text that grows at its end: whole texts, texts with HTML escapes (HTML standard, "Named
//! character references"), and decimal numbers.
//!
//! Contracts see a [`Text`] as the list of its bytes, which are always UTF-8.
//!
//! ```
//! let mut page = Text::new(alloc);
//! page.push("<h1>")?;
//! page.push_escaped(title)?;
//! page.push("</h1>\n")?;
//! let bytes = page.into_bytes();
//! ```
#![tactic(auto)]

mod escape;
mod text;

pub use text::Text;
