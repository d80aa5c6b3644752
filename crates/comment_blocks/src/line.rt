//! The lines of a text.

ghost use Rattle.std.specs.Prelude.{◌≡◌, ◌≤◌, IfOk, drop, length};
ghost use Rattle.std.specs.List.{prefix_len};
ghost use Rattle.comment_blocks.specs.Texts.{is_blank, lines_of};
ghost use Rattle.comment_blocks.specs.Spans.{is_indented, is_plain};
ghost use Rattle.comment_blocks.specs.LineSteps.{reach, texts};

use go_ast::Mem;
use memchr::memchr;
use std::alloc::Global;

/// Whether a byte is a blank: a space or a tab.
pub fn is_blank(byte: u8) -> bool
    ensures { result ≡ is_blank byte }
{
    byte == b' ' || byte == b'\t'
}

/// Whether a line is indented: it begins with a blank.
pub fn is_indented(line: &str) -> bool
    ensures { result ≡ is_indented line.now }
{
    match line.as_bytes() {
        [] => false,
        [first, ..] => is_blank(*first),
    }
}

/// Whether a line is plain: it isn't empty, and doesn't begin with a blank.
pub fn is_plain(line: &str) -> bool
    ensures { result ≡ is_plain line.now }
{
    match line.as_bytes() {
        [] => false,
        [first, ..] => !is_blank(*first),
    }
}

/// The lines of a text.
pub fn lines_of(alloc: Global, text: &str) -> Mem<Vec<&str>>
    ensures { IfOk result (λ lines. texts lines.items ≡ lines_of text.now) }
{
    let mut lines = Vec::new(alloc);
    let mut rest = text;
    while let Some(end) = memchr(b'\n', rest.as_bytes()) {
        lines.push(&rest[..end])?;
        rest = &rest[end + 1..];
    }
    lines.push(rest)?;
    Ok(lines)
}

/// How many plain lines begin a text.
pub fn plain_len(lines: &[&str]) -> usize
    ensures len { result ≡ prefix_len is_plain (texts lines.now) }
    ensures within { result ≤ length lines.now }
{
    let mut len = 0;
    let mut rest = lines;
    while let [line, after @ ..] = rest {
        if !is_plain(line) {
            break;
        }
        len += 1;
        rest = after;
    }
    len
}

/// How many lines at the beginning continue an indented span.
pub fn indented_len(lines: &[&str]) -> usize
    ensures len { result ≡ reach (texts lines.now) }
    ensures within { result ≤ length lines.now }
{
    let mut len = 0;
    let mut seen = 0;
    let mut rest = lines;
    while let [line, after @ ..] = rest {
        if is_plain(line) {
            break;
        }
        seen += 1;
        if !line.is_empty() {
            len = seen;
        }
        rest = after;
    }
    len
}

/// The lines after the first ones.
pub fn skip<'a, 'b>(lines: &'a [&'b str], count: usize) -> &'a [&'b str]
    requires { count ≤ length lines.now }
    ensures { result.now ≡ drop count lines.now }
{
    &lines[count..]
}
