//! Where build lines stand in a source.

ghost use Rattle.std.specs.Prelude.{◌≡◌, ◌≤◌, All, IfOk, IsTrue, length};
ghost use Rattle.go_ast.specs.declared.token.TheConstants.{MAX_SOURCE_BYTES};
ghost use Rattle.go_ast.specs.Characters.{is_white_space};
ghost use Rattle.go_ast.specs.Position.{line_of};
ghost use Rattle.build_lines.specs.BuildLines.{begins_build, build_lines};
ghost use Rattle.build_lines.specs.Judging.{BeginsBuild, IsInside};
ghost use Rattle.build_lines.specs.BuildLines.{ends_word, expression_text, first_token, is_alone};
ghost use Rattle.build_lines.specs.BuildLines.{is_build_line, is_semicolon, stands_before};
ghost use Rattle.build_lines.specs.BuildLines.{text_of_comment, without_mark};

use crate::part::after_last;
use go_ast::{Comment, Mem, Scanned, Token, TokenKind};
use std::alloc::Global;

/// Whether a token is a semicolon, written or put there.
fn is_semicolon(kind: TokenKind) -> bool
    ensures { result ≡ is_semicolon kind }
{
    matches!(kind, TokenKind::Semi | TokenKind::AutoSemi)
}

/// The first token that isn't a semicolon.
fn first_token(tokens: &[Token]) -> Option<Token>
    ensures { result ≡ first_token tokens.now }
{
    for token in tokens {
        if !is_semicolon(token.kind) {
            return Some(*token);
        }
    }
    None
}

/// Whether a comment begins before a token, if there is one.
fn stands_before(first: Option<Token>, comment: &Comment) -> bool
    ensures { result ≡ stands_before first comment.now }
{
    match first {
        None => true,
        Some(token) => comment.span.start < token.span.start,
    }
}

/// The text of a comment, with its opening mark.
fn text_of_comment<'a>(source: &'a [u8], comment: &Comment) -> &'a [u8]
    requires { IsInside (length source.now) comment.now }
    ensures { result.now ≡ text_of_comment source.now comment.now }
{
    &source[comment.span.start as usize..comment.span.end as usize]
}

fn is_white_space(byte: u8) -> bool
    ensures { result ≡ is_white_space byte }
{
    matches!(byte, b' ' | b'\t' | b'\r' | b'\n')
}

/// The bytes without a byte order mark at their beginning.
fn without_mark(bytes: &[u8]) -> &[u8]
    ensures { result.now ≡ without_mark bytes.now }
{
    if bytes.starts_with(&[0xEF, 0xBB, 0xBF]) {
        &bytes[3..]
    } else {
        bytes
    }
}

/// Whether only white space stands on a line before an offset.
#[tactic(auto, unfolding(crate::specs::BuildLines::is_alone))]
fn is_alone(source: &[u8], offset: usize) -> bool
    requires { offset ≤ length source.now }
    ensures { result ≡ is_alone source.now offset }
{
    let line = after_last(b'\n', without_mark(&source[..offset]));
    line.iter().all(|byte| is_white_space(*byte))
}

/// Whether bytes end, or go on with a blank.
fn ends_word(bytes: &[u8]) -> bool
    ensures { result ≡ ends_word bytes.now }
{
    match bytes {
        [] => true,
        [first, ..] => *first == b' ' || *first == b'\t',
    }
}

/// Whether a text begins as a build line does.
#[tactic(auto, unfolding(crate::specs::BuildLines::begins_build))]
fn begins_build(text: &[u8]) -> bool
    ensures { result ≡ begins_build text.now }
{
    text.starts_with(b"//go:build") && ends_word(&text[10..])
}

/// Whether a comment is a build line, where the first token that isn't a semicolon is this one.
fn is_build_line(source: &[u8], first: Option<Token>, comment: &Comment) -> bool
    requires { IsInside (length source.now) comment.now }
    ensures { result ≡ is_build_line source.now first comment.now }
{
    !comment.general
        && stands_before(first, comment)
        && begins_build(text_of_comment(source, comment))
        && is_alone(source, comment.span.start as usize)
}

/// The build lines of a source, in their order.
#[tactic(auto, unfolding(crate::specs::BuildLines::build_lines))]
pub fn build_lines(alloc: Global, source: &[u8], scanned: &Scanned) -> Mem<Vec<Comment>>
    requires { All (IsInside (length source.now)) scanned.now.comments }
    ensures { IfOk result (λ lines.
        lines.items ≡ build_lines source.now scanned.now.tokens scanned.now.comments) }
{
    let first = first_token(scanned.tokens.as_slice());
    let mut lines = Vec::new(alloc);
    for comment in scanned.comments.as_slice() {
        if is_build_line(source, first, comment) {
            lines.push(*comment)?;
        }
    }
    Ok(lines)
}

/// What stands after `//go:build` in a build line.
#[tactic(auto, unfolding(crate::specs::BuildLines::begins_build))]
pub fn expression_text<'a>(source: &'a [u8], line: &Comment) -> &'a [u8]
    requires inside { IsInside (length source.now) line.now }
    requires begins { BeginsBuild source.now line.now }
    ensures { result.now ≡ expression_text source.now line.now }
{
    &text_of_comment(source, line)[10..]
}

/// The line of an offset, counted from 1.
pub fn line_of(source: &[u8], offset: u32) -> u32
    requires within { offset ≤ length source.now }
    requires small { length source.now ≤ MAX_SOURCE_BYTES }
    ensures { result ≡ line_of source.now offset }
{
    let before = &source[..offset as usize];
    before.iter().filter(|byte| **byte == b'\n').count() as u32 + 1
}
