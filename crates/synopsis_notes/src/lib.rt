//! What the text of a doc comment says in short: its synopsis, a note on a bug, and whether
//! something is deprecated (after Go's package `go/doc`).
//!
//! ```
//! let first = synopsis(alloc, "Sum adds. It may wrap.")?; // Sum adds.
//! let note = bug(alloc, "BUG(ann): leaks.")?; // leaks.
//! let old = deprecated(alloc, "Deprecated: use B.")?; // true
//! ```
#![tactic(auto)]

mod laws;
mod note;
mod sentence;
mod summary;

pub use laws::text_has_one_first_sentence;
pub use note::{bug, deprecated};
pub use summary::synopsis;
