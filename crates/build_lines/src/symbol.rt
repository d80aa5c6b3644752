//! The symbols of an expression.

/// A symbol of an expression, with a tag's value in place of its name.
#[derive(Clone, Copy)]
pub enum Symbol {
    /// `(`.
    Open,
    /// `)`.
    Close,
    /// `!`.
    Not,
    /// `&&`.
    And,
    /// `||`.
    Or,
    /// A tag, and whether it holds.
    Tag(bool),
}

/// Where a character of an expression stands.
#[derive(Clone, Copy, PartialEq, Eq)]
pub enum Place {
    /// Between symbols.
    Between,
    /// Behind the first `&`.
    AfterAmpersand,
    /// Behind the first `|`.
    AfterBar,
    /// Behind a character of a tag.
    InTag,
}

/// What a character does: the symbol that ends with it, and the place after it.
#[derive(Clone, Copy)]
pub struct Step {
    /// The symbol, where one other than a tag ends with the character.
    pub symbol: Option<Symbol>,
    /// The place after the character.
    pub place: Place,
}
