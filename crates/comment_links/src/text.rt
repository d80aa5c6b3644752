//! What a text begins with.

ghost use Rattle.std.specs.Prelude.{◌≡◌};
ghost use Rattle.comment_links.specs.Marks.{begins_in_name};

use go_chars::{is_digit, is_letter};

/// Whether the first character is a letter or a digit.
pub fn begins_in_name(text: &str) -> bool
    ensures { result ≡ begins_in_name text.now }
{
    match text.chars().next() {
        None => false,
        Some(c) => is_letter(c) || is_digit(c),
    }
}
