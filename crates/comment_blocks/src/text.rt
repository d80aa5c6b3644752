//! The text of a comment group.

ghost use Rattle.std.specs.Prelude.{◌≡◌, ◌≤◌, IfOk, MatchOption, None, OnOk, Some, length};
ghost use Rattle.std.specs.List.{flat_map};
ghost use Rattle.comment_blocks.specs.Texts.{AreCommentsOf, begins_word, comment_text_of};
ghost use Rattle.comment_blocks.specs.Texts.{content_end, content_of, is_directive, is_tool_line};
ghost use Rattle.comment_blocks.specs.Texts.{is_trailing, is_word_byte, kept_line, lines_of};
ghost use Rattle.comment_blocks.specs.Texts.{lines_of_comment, trimmed, word_then_colon};
ghost use Rattle.comment_blocks.specs.TextSteps.{HasContent, after_line, after_lines, line_break};
ghost use Rattle.comment_blocks.specs.TextSteps.{nothing};

use crate::line::is_blank;
use go_ast::{Comment, Mem, Txt};
use memchr::memchr;
use std::alloc::Global;
use std::marker::Model;
use std::str;

/// Whether a byte goes where it stands at the end of a line.
fn is_trailing(byte: u8) -> bool
    ensures { result ≡ is_trailing byte }
{
    is_blank(byte) || byte == b'\r'
}

/// A line without the blanks and carriage returns at its end.
fn trim_end(line: &str) -> &str
    ensures { result.now ≡ trimmed line.now }
{
    let bytes = line.as_bytes();
    let mut end = bytes.len();
    while end > 0 && is_trailing(bytes[end - 1]) {
        end -= 1;
    }
    &line[..end]
}

/// Whether a byte may stand in the words of a directive.
fn is_word_byte(byte: u8) -> bool
    ensures { result ≡ is_word_byte byte }
{
    byte.is_ascii_lowercase() || byte.is_ascii_digit()
}

/// Whether a text begins with a word of a directive.
fn begins_word(text: &[u8]) -> bool
    ensures { result ≡ begins_word text.now }
{
    match text {
        [] => false,
        [first, ..] => is_word_byte(*first),
    }
}

/// Whether a text continues with a word's rest, a colon and another word.
fn word_then_colon(text: &[u8]) -> bool
    ensures { result ≡ word_then_colon text.now }
{
    let mut rest = text;
    while let [byte, after @ ..] = rest {
        if !is_word_byte(*byte) {
            return *byte == b':' && begins_word(after);
        }
        rest = after;
    }
    false
}

/// Whether a text is a line for tools, such as `go:build`.
fn is_tool_line(text: &[u8]) -> bool
    ensures { result ≡ is_tool_line text.now }
{
    match text {
        [] => false,
        [first, rest @ ..] => is_word_byte(*first) && word_then_colon(rest),
    }
}

/// Whether what stands after `//` is a directive.
fn is_directive(text: &[u8]) -> bool
    ensures { result ≡ is_directive text.now }
{
    text.starts_with(b"line ")
        || text.starts_with(b"extern ")
        || text.starts_with(b"export ")
        || is_tool_line(text)
}

/// The line that stands after `//`, or `None` for a directive.
fn kept_line(content: &str) -> Option<&str>
    ensures { MatchOption result (kept_line content.now ≡ None)
        (λ line. kept_line content.now ≡ Some line.now) }
{
    match content.as_bytes() {
        [] => Some(content),
        [b' ', ..] => Some(&content[1..]),
        bytes => {
            if is_directive(bytes) {
                None
            } else {
                Some(content)
            }
        }
    }
}

fn content_end(comment: &Comment) -> usize
    requires { 2 ≤ comment.now.span.end }
    ensures { result ≡ content_end comment.now }
{
    let end = comment.span.end as usize;
    if comment.general { end - 2 } else { end }
}

/// What stands between the marks of a comment.
fn content<'a>(source: &'a [u8], comment: &Comment) -> &'a str
    requires { HasContent source.now comment.now }
    ensures { result.now ≡ content_of source.now comment.now }
{
    let end = content_end(comment);
    str::from_utf8(&source[comment.span.start as usize + 2..end]).unwrap()
}

/// A text that grows by lines.
#[derive(Drop)]
struct Lines {
    text: String,
    gap: bool,
}

impl Model for Lines {
    ghost use Rattle.std.specs.Prelude.{string_bytes};
    ghost use Rattle.comment_blocks.specs.TextSteps.{Begun};

    ghost Value = { Begun };

    ghost view = { λ it. record { text = string_bytes it.text; gap = it.gap } };
}

impl Lines {
    /// No line yet.
    fn new(alloc: Global) -> Lines
        ensures { result ≡ nothing }
    {
        Lines {
            text: String::new(alloc),
            gap: false,
        }
    }

    /// What stands between the text and its next line.
    fn line_break(&self) -> &'static str
        ensures { result.now ≡ line_break self.now.text self.now.gap }
    {
        if self.text.is_empty() {
            ""
        } else if self.gap {
            "\n\n"
        } else {
            "\n"
        }
    }

    fn push_line(&mut self, line: &str) -> Mem<()>
        ensures { OnOk result (self.new ≡ after_line self.old line.now) }
    {
        let line = trim_end(line);
        if line.is_empty() {
            self.gap = true;
            return Ok(());
        }
        let line_break = self.line_break();
        self.text.push_str(line_break)?;
        self.text.push_str(line)?;
        self.gap = false;
        Ok(())
    }

    fn push_lines(&mut self, text: &str) -> Mem<()>
        ensures { OnOk result (self.new ≡ after_lines self.old (lines_of text.now)) }
    {
        let mut rest = text;
        while let Some(end) = memchr(b'\n', rest.as_bytes()) {
            self.push_line(&rest[..end])?;
            rest = &rest[end + 1..];
        }
        self.push_line(rest)
    }

    fn push_comment(&mut self, source: &[u8], comment: &Comment) -> Mem<()>
        requires { HasContent source.now comment.now }
        ensures { OnOk result (self.new
            ≡ after_lines self.old (lines_of_comment source.now comment.now)) }
    {
        let content = content(source, comment);
        if comment.general {
            return self.push_lines(content);
        }
        match kept_line(content) {
            None => Ok(()),
            Some(line) => self.push_line(line),
        }
    }
}

/// The text of a comment group: the lines of its comments without their marks, trailing blanks and
/// carriage returns, and directives; a run of empty lines is made one, and those at both ends go.
/// It has no newline at its end. The comments stand one after another in the source (Go Doc
/// Comments).
///
/// # Errors
///
/// `NoMemory` where an allocation is refused.
pub fn comment_text(alloc: Global, source: &[u8], comments: &[Comment]) -> Mem<Txt>
    requires { AreCommentsOf source.now comments.now }
    ensures { IfOk result (λ text. text ≡ comment_text_of source.now comments.now) }
{
    let mut lines = Lines::new(alloc);
    for comment in comments {
        lines.push_comment(source, comment)?;
    }
    Ok(Txt::from_string(lines.text))
}
