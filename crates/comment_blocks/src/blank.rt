//! Texts without the blanks at their ends.

ghost use Rattle.std.specs.Prelude.{◌≡◌};
ghost use Rattle.std.specs.List.{prefix_len};
ghost use Rattle.comment_blocks.specs.Texts.{is_blank};
ghost use Rattle.comment_blocks.specs.Kinds.{without_blanks, without_last_blanks};

use crate::line::is_blank;

/// How many blanks a text begins with.
pub fn blank_len(text: &[u8]) -> usize
    ensures { result ≡ prefix_len is_blank text.now }
{
    text.iter().take_while(|byte| is_blank(**byte)).count()
}

/// A text without the blanks at its beginning.
pub fn trim_front(text: &str) -> &str
    ensures { result.now ≡ without_blanks text.now }
{
    &text[blank_len(text.as_bytes())..]
}

/// A text without the blanks at its end.
pub fn trim_back(text: &str) -> &str
    ensures { result.now ≡ without_last_blanks text.now }
{
    let bytes = text.as_bytes();
    let mut end = bytes.len();
    while end > 0 && is_blank(bytes[end - 1]) {
        end -= 1;
    }
    &text[..end]
}
