//! What may begin with a byte.

ghost use Rattle.std.specs.Prelude.{◌≡◌};
ghost use Rattle.go_scanner.specs.Classes.{class_of, is_blank, is_word_byte};

use Class::{
    BackQuote as Back, Blank, Closing, Digit, DoubleQuote as Double, Letter, LineEnd, Lone, Other,
    Point, Semicolon, SingleQuote as Single, Slash, Wide,
};

/// What may begin with a byte.
#[derive(Clone, Copy, Debug, PartialEq, Eq)]
pub enum Class {
    /// A letter of ASCII, or the underscore.
    Letter,
    Digit,
    LineEnd,
    Blank,
    DoubleQuote,
    SingleQuote,
    BackQuote,
    Semicolon,
    Slash,
    Point,
    /// A closing bracket.
    Closing,
    /// An opening bracket, a comma or a tilde, each of which begins no longer operator.
    Lone,
    /// The first byte of a character past ASCII.
    Wide,
    Other,
}

/// The class of each byte.
static CLASSES: [Class; 256] = [
    Other, Other, Other, Other, Other, Other, Other, Other, Other, Blank, LineEnd, Other, Other,
    Blank, Other, Other, Other, Other, Other, Other, Other, Other, Other, Other, Other, Other,
    Other, Other, Other, Other, Other, Other, Blank, Other, Double, Other, Other, Other, Other,
    Single, Lone, Closing, Other, Other, Lone, Other, Point, Slash, Digit, Digit, Digit, Digit,
    Digit, Digit, Digit, Digit, Digit, Digit, Other, Semicolon, Other, Other, Other, Other, Other,
    Letter, Letter, Letter, Letter, Letter, Letter, Letter, Letter, Letter, Letter, Letter, Letter,
    Letter, Letter, Letter, Letter, Letter, Letter, Letter, Letter, Letter, Letter, Letter, Letter,
    Letter, Letter, Lone, Other, Closing, Other, Letter, Back, Letter, Letter, Letter, Letter,
    Letter, Letter, Letter, Letter, Letter, Letter, Letter, Letter, Letter, Letter, Letter, Letter,
    Letter, Letter, Letter, Letter, Letter, Letter, Letter, Letter, Letter, Letter, Lone, Other,
    Closing, Lone, Other, Wide, Wide, Wide, Wide, Wide, Wide, Wide, Wide, Wide, Wide, Wide, Wide,
    Wide, Wide, Wide, Wide, Wide, Wide, Wide, Wide, Wide, Wide, Wide, Wide, Wide, Wide, Wide, Wide,
    Wide, Wide, Wide, Wide, Wide, Wide, Wide, Wide, Wide, Wide, Wide, Wide, Wide, Wide, Wide, Wide,
    Wide, Wide, Wide, Wide, Wide, Wide, Wide, Wide, Wide, Wide, Wide, Wide, Wide, Wide, Wide, Wide,
    Wide, Wide, Wide, Wide, Wide, Wide, Wide, Wide, Wide, Wide, Wide, Wide, Wide, Wide, Wide, Wide,
    Wide, Wide, Wide, Wide, Wide, Wide, Wide, Wide, Wide, Wide, Wide, Wide, Wide, Wide, Wide, Wide,
    Wide, Wide, Wide, Wide, Wide, Wide, Wide, Wide, Wide, Wide, Wide, Wide, Wide, Wide, Wide, Wide,
    Wide, Wide, Wide, Wide, Wide, Wide, Wide, Wide, Wide, Wide, Wide, Wide, Wide, Wide, Wide, Wide,
    Wide, Wide, Wide, Wide,
];

/// The class of a byte.
#[inline(always)]
pub fn class_of(byte: u8) -> Class
    ensures { result ≡ class_of byte }
{
    CLASSES[byte as usize]
}

/// Whether a byte is white space other than the newline.
#[inline(always)]
pub fn is_blank(byte: u8) -> bool
    ensures { result ≡ is_blank byte }
{
    matches!(byte, b' ' | b'\t' | b'\r')
}

/// Whether a byte is a letter or digit of ASCII, or the underscore.
#[inline(always)]
pub fn is_word_byte(byte: u8) -> bool
    ensures { result ≡ is_word_byte byte }
{
    matches!(class_of(byte), Letter | Digit)
}
