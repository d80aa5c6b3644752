//! Texts, cut at places where a character begins, and the characters that they end with.

ghost use Rattle.std.specs.Prelude.{◌≡◌, ◌-◌, ◌<◌, ◌≤◌, IsTrue, None, drop, length, slice_index};
ghost use Rattle.std.specs.Prelude.{take};
ghost use Rattle.std.specs.Char.{is_ascii};
ghost use Rattle.std.specs.List.{last_or};
ghost use Rattle.std.specs.Str.{IsCharBoundary, chars};
ghost use Rattle.comment_blocks.specs.Kinds.{is_name_end};

use go_chars::{is_digit, is_letter};

/// The text after its first `count` bytes, of which the last is ASCII.
pub fn after(text: &str, count: usize) -> &str
    requires some { 0 < count }
    requires within { count ≤ length text.now }
    requires ascii { IsTrue (is_ascii (slice_index text.now (count - 1))) }
    ensures { result.now ≡ drop count text.now }
{
    &text[count..]
}

/// A text, cut at a place where a character begins or the text ends.
pub fn cut(text: &str, place: usize) -> (&str, &str)
    requires { IsCharBoundary text.now place }
    ensures front { result.0.now ≡ take place text.now }
    ensures back { result.1.now ≡ drop place text.now }
{
    (&text[..place], &text[place..])
}

/// Where the last character begins, or the start of an empty text.
fn last_start(text: &str) -> usize
    ensures start { IsCharBoundary text.now result }
    ensures before { 0 < length text.now → result < length text.now }
{
    let mut start = text.len();
    while start > 0 {
        start -= 1;
        if text.is_char_boundary(start) {
            return start;
        }
    }
    0
}

/// The last of the characters of a short text.
fn last_of(text: &str) -> Option<char>
    ensures { result ≡ last_or None (chars text.now) }
{
    text.chars().last()
}

/// The last character, found from the end.
fn last_char(text: &str) -> Option<char>
    ensures { result ≡ last_or None (chars text.now) }
{
    let (_, last) = cut(text, last_start(text));
    last_of(last)
}

/// Whether the last character is a letter or a digit.
pub fn ends_in_name(text: &str) -> bool
    ensures { result ≡ is_name_end (last_or None (chars text.now)) }
{
    match last_char(text) {
        None => false,
        Some(c) => is_letter(c) || is_digit(c),
    }
}
