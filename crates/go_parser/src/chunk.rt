//! Chunks, and what brackets and semicolons make of a file.

use go_ast::TokenRange;

/// The tokens between semicolons outside brackets, of which there is at least one.
#[derive(Clone, Copy, Debug, PartialEq, Eq)]
pub struct Chunk {
    /// The tokens.
    pub tokens: TokenRange,
    /// The place of the bracket that the last token closes, where it closes one. It stands outside
    /// all other brackets.
    pub opened: Option<u32>,
}

/// What brackets and semicolons make of the tokens of a file.
#[derive(Debug, Drop)]
pub enum Cut {
    /// Brackets nest, and these are the chunks, in their order.
    Chunks(Vec<Chunk>),
    /// Brackets don't nest. The byte offset is that of the first closing bracket that doesn't match
    /// the innermost open one, or else of the first bracket that is left open.
    Unbalanced(u32),
}
