//! The blocks of a comment's text.

use go_ast::{Seq, Txt};

/// A part of a comment's text (Go Doc Comments).
#[derive(Drop)]
pub enum Block {
    /// A paragraph: its lines, joined by newlines.
    Paragraph(Txt),
    /// A heading, without its mark and the blanks round it.
    Heading(Txt),
    /// Preformatted text without the blanks that all its lines begin with, a newline after each
    /// line.
    Code(Txt),
    /// A list.
    List {
        /// Whether the first item has a number.
        numbered: bool,
        /// The items, in their order.
        items: Seq<Item>,
    },
    /// Definitions of links, in their order.
    Links(Seq<LinkDef>),
}

/// An item of a list.
#[derive(Drop)]
pub struct Item {
    /// The decimal digits of its marker, or the empty text where the marker has none.
    pub number: Txt,
    /// Its paragraphs: each one's lines, without the blanks before them, joined by newlines.
    pub paragraphs: Seq<Txt>,
}

/// A definition of a link: `[text]: url`.
#[derive(Drop)]
pub struct LinkDef {
    /// The text between the brackets.
    pub text: Txt,
    /// The address.
    pub url: Txt,
}
