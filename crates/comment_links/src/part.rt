//! What a text consists of.

use go_ast::Txt;

/// A part of a text.
#[derive(Drop)]
pub enum Inline {
    /// Plain text.
    Plain(Txt),
    /// A link.
    Link {
        /// What is shown.
        text: Txt,
        /// The address.
        href: Txt,
    },
}
