//! The length of an array, as a value.

use plain_data::Txt;

/// The length of an array type.
#[derive(Drop)]
pub enum Length {
    /// The value of the constant expression, where it has one of at least 0.
    Known(u128),
    /// The texts of the tokens with one space between them, where it has none.
    AsText(Txt),
}
