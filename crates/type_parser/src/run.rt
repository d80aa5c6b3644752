//! Whether words are the length of an array.

ghost use Rattle.std.specs.Prelude.{◌≡◌, [], IfOk};
ghost use Rattle.go_ast.specs.Cutting as spec;
ghost use Rattle.type_parser.specs.Matching.{plain};

use crate::matching::Matched;
use go_ast::{Mark, Mem};
use std::alloc::Global;

/// The bracket that closes an opening one.
fn closing_of(mark: Mark) -> Mark
    ensures { result ≡ spec.closing_of mark }
{
    match mark {
        Mark::OpenParen => Mark::CloseParen,
        Mark::OpenBracket => Mark::CloseBracket,
        _ => Mark::CloseBrace,
    }
}

/// Whether each bracket is closed by one of its kind, and no semicolon stands outside brackets.
fn is_balanced(alloc: Global, items: &[Matched]) -> Mem<bool>
    ensures { IfOk result (λ is. is ≡ spec.balanced [] (plain items.now)) }
{
    let mut expected: Vec<Mark> = Vec::new(alloc);
    for item in items {
        let mark = item.word.mark;
        if mark.opens() {
            expected.push(closing_of(mark))?;
        } else if mark.closes() {
            match expected.pop() {
                Some(close) if mark.is(close) => {}
                _ => return Ok(false),
            }
        } else if mark.is(Mark::Semi) && expected.is_empty() {
            return Ok(false);
        }
    }
    Ok(expected.is_empty())
}

/// Whether the words are three dots alone.
fn is_ellipsis_alone(items: &[Matched]) -> bool
    ensures { result ≡ spec.is_ellipsis_alone (plain items.now) }
{
    match items {
        [one] => one.word.mark.is(Mark::Ellipsis),
        _ => false,
    }
}

/// Whether the words, of which there is at least one, are the length of an array.
#[tactic(auto, unfolding(go_ast::specs::Cutting::is_run))]
pub fn is_run(alloc: Global, items: &[Matched]) -> Mem<bool>
    ensures { IfOk result (λ is. is ≡ spec.is_run (plain items.now)) }
{
    Ok(is_balanced(alloc, items)? && !is_ellipsis_alone(items))
}
