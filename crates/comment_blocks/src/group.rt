//! The comment group that documents a declaration.

ghost use Rattle.std.specs.Prelude.{◌≡◌, ◌+◌, ◌^◌, ◌≤◌, ◌<◌, ℕ, length, IfSome, IfNone, IsTrue};
ghost use Rattle.std.specs.Prelude.{slice_get};
ghost use Rattle.comment_blocks.specs.Groups.{IsScan, IsDocGroup, are_joined, begins_beside_token};
ghost use Rattle.comment_blocks.specs.Groups.{ends_before, goes_on_at, line_at, token_between};
ghost use Rattle.comment_blocks.specs.Groups.{token_ends_on};
ghost use Rattle.comment_blocks.specs.GroupSteps.{AreCommentsBefore, AreTokensBefore, IsInOrder};
ghost use Rattle.comment_blocks.specs.GroupSteps.{IsStart, NeverFall};

use go_ast::{Comment, Scanned, TokenRange};

/// The line of an offset, counted from 1, by the offsets where the lines begin.
fn line_at(starts: &[u32], offset: u32) -> usize
    ensures line { NeverFall starts.now → result ≡ line_at starts.now offset }
    ensures within { result ≤ length starts.now }
{
    starts.partition_point(|start| *start <= offset)
}

/// How many tokens end on a line before a line.
fn tokens_before(scanned: &Scanned, line: usize) -> usize
    requires { IsInOrder scanned.now }
    ensures { AreTokensBefore scanned.now line result }
{
    let lines = scanned.lines.as_slice();
    let tokens = scanned.tokens.as_slice();
    tokens.partition_point(|token| line_at(lines, token.span.end) < line)
}

/// How many comments end on a line before a line.
fn comments_before(scanned: &Scanned, line: usize) -> usize
    requires { IsInOrder scanned.now }
    ensures before { AreCommentsBefore scanned.now line result }
    ensures within { result ≤ length scanned.now.comments }
{
    let lines = scanned.lines.as_slice();
    let comments = scanned.comments.as_slice();
    comments.partition_point(|comment| line_at(lines, comment.span.end) < line)
}

fn token_ends_on(scanned: &Scanned, line: usize) -> bool
    requires { IsInOrder scanned.now }
    ensures { result ≡ token_ends_on scanned.now line }
{
    let lines = scanned.lines.as_slice();
    let place = tokens_before(scanned, line);
    match scanned.tokens.get(place) {
        None => false,
        Some(token) => line_at(lines, token.span.end) == line,
    }
}

/// Whether a token stands between two offsets.
fn token_between(scanned: &Scanned, from: u32, to: u32) -> bool
    requires { IsInOrder scanned.now }
    ensures { result ≡ token_between scanned.now.tokens from to }
{
    let tokens = scanned.tokens.as_slice();
    let place = tokens.partition_point(|token| token.span.start < from);
    match scanned.tokens.get(place) {
        None => false,
        Some(token) => from <= token.span.start && token.span.end <= to,
    }
}

/// Whether a comment and the next are of one group.
fn are_joined(scanned: &Scanned, comment: &Comment, next: &Comment) -> bool
    requires { IsInOrder scanned.now }
    ensures { result ≡ are_joined scanned.now comment.now next.now }
{
    let lines = scanned.lines.as_slice();
    let first_line = line_at(lines, comment.span.start);
    let next_line = line_at(lines, next.span.start);
    !token_between(scanned, comment.span.end, next.span.start)
        && next_line <= line_at(lines, comment.span.end) + 1
        && (!token_ends_on(scanned, first_line) || next_line == first_line)
}

/// Whether there is a comment at a place that is of the group of the one before it.
fn goes_on_at(scanned: &Scanned, place: usize) -> bool
    requires { IsInOrder scanned.now }
    ensures { result ≡ goes_on_at scanned.now place }
{
    if place == 0 {
        return false;
    }
    match (scanned.comments.get(place - 1), scanned.comments.get(place)) {
        (Some(comment), Some(next)) => are_joined(scanned, comment, next),
        _ => false,
    }
}

/// The last place at or before a place at which no comment continues a group.
fn group_start(scanned: &Scanned, place: usize) -> usize
    requires { IsInOrder scanned.now }
    ensures { IsStart scanned.now place result }
{
    let mut start = place;
    while goes_on_at(scanned, start) {
        start -= 1;
    }
    start
}

/// Whether the comment at a place begins on a line where a token ends.
fn begins_beside_token(scanned: &Scanned, place: usize) -> bool
    requires { IsInOrder scanned.now }
    ensures { result ≡ begins_beside_token scanned.now (slice_get scanned.now.comments place) }
{
    match scanned.comments.get(place) {
        None => false,
        Some(comment) => token_ends_on(
            scanned,
            line_at(scanned.lines.as_slice(), comment.span.start),
        ),
    }
}

/// Whether there is a comment at a place, and it ends on the line before a line.
fn ends_before(scanned: &Scanned, place: usize, line: usize) -> bool
    requires { IsInOrder scanned.now }
    ensures value { result ≡ ends_before scanned.now line (slice_get scanned.now.comments place) }
    ensures fits { IsTrue result → place + 1 < 2 ^ 32 }
{
    match scanned.comments.get(place) {
        None => false,
        Some(comment) => line_at(scanned.lines.as_slice(), comment.span.end) + 1 == line,
    }
}

/// The group that `doc_group` looks for, by lists that stand in their order.
fn find_group(scanned: &Scanned, line: usize) -> Option<TokenRange>
    requires { IsInOrder scanned.now }
    ensures found { IfSome result (λ range. IsDocGroup scanned.now line range.first range.after) }
    ensures none { IfNone result ((first after : ℕ) → ¬ (IsDocGroup scanned.now line first after)) }
{
    let mut after = group_start(scanned, comments_before(scanned, line));
    while after > 0 {
        if !ends_before(scanned, after - 1, line) {
            return None;
        }
        let first = group_start(scanned, after - 1);
        if !begins_beside_token(scanned, first) {
            return Some(TokenRange {
                first: first as u32,
                after: after as u32,
            });
        }
        after = first;
    }
    None
}

/// The comments of the group that ends on the line before a line and doesn't begin on a line where
/// a token ends, as places in `comments`; `None` exactly where there is no such group. Lines count
/// from 1. It takes no memory (Go Doc Comments).
///
/// The last comment before the line is found by binary search, and from there the groups that end
/// on the line before are visited: a call takes one step for each of their comments.
pub fn doc_group(scanned: &Scanned, line: u32) -> Option<TokenRange>
    requires { IsScan scanned.now }
    ensures found { IfSome result (λ range. IsDocGroup scanned.now line range.first range.after) }
    ensures none { IfNone result ((first after : ℕ) → ¬ (IsDocGroup scanned.now line first after)) }
{
    find_group(scanned, line as usize)
}
