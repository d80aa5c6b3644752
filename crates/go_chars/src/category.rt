//! Characters by their general category.

ghost use Rattle.std.specs.Prelude.{◌≡◌};
ghost use Rattle.go_chars.specs.Letters.{is_letter, is_digit, is_upper};

use unicode::properties::{GeneralCategory, GeneralCategoryGroup};

/// Whether an identifier may begin with a character: the underscore, or one of the general
/// categories Lu, Ll, Lt, Lm and Lo (Go specification, "Letters and digits").
#[tactic(auto, using(crate::proofs::Ascii::ascii_letters))]
#[inline]
pub fn is_letter(c: char) -> bool
    ensures { result ≡ is_letter c }
{
    if c.is_ascii() {
        c == '_' || c.is_ascii_alphabetic()
    } else {
        GeneralCategoryGroup::Letter.contains(GeneralCategory::for_char(c))
    }
}

/// Whether a character is a digit: one of the general category Nd (Go specification, "Characters").
#[tactic(auto, using(crate::proofs::Ascii::ascii_digits))]
#[inline]
pub fn is_digit(c: char) -> bool
    ensures { result ≡ is_digit c }
{
    if c.is_ascii() {
        c.is_ascii_digit()
    } else {
        GeneralCategory::for_char(c) == GeneralCategory::DecimalNumber
    }
}

/// Whether a character is an upper case letter: one of the general category Lu.
#[inline]
pub fn is_upper(c: char) -> bool
    ensures { result ≡ is_upper c }
{
    GeneralCategory::for_char(c) == GeneralCategory::UppercaseLetter
}
