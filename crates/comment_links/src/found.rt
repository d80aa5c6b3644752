//! What stands at a place of a text.

use crate::part::Inline;

/// A mark: what it becomes, and how many bytes of the text it is.
#[derive(Drop)]
pub struct Found {
    pub inline: Inline,
    pub len: usize,
}
