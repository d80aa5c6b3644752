//! Brackets matched once: each word with how far away the bracket is that closes it.

ghost use Rattle.std.specs.Prelude.{◌≡◌, drop, get_or, reverse, IfOk};
ghost use Rattle.go_ast.specs.declared.word.Word.{Word};
ghost use Rattle.type_parser.specs.Matching as spec;

use go_ast::{Mem, Word};
use std::alloc::Global;

/// A word, and how far away the bracket is that closes it.
#[derive(Clone, Copy, Debug, PartialEq, Eq)]
pub struct Matched {
    /// The word.
    pub word: Word,
    /// How many words stand between it and the bracket that closes one opened here, or how many
    /// follow where none closes it.
    pub inside: usize,
}

fn last_or_zero(numbers: &[usize]) -> usize
    ensures { result ≡ get_or (reverse numbers.now) 0 0 }
{
    match numbers {
        [] => 0,
        [.., last] => *last,
    }
}

/// Takes the last of some numbers off.
fn drop_last(numbers: &mut Vec<usize>)
    ensures { reverse numbers.new.items ≡ drop 1 (reverse numbers.old.items) }
{
    numbers.pop();
}

/// The words with their brackets matched, from the last to the first.
fn match_backwards(alloc: Global, words: &[Word]) -> Mem<Vec<Matched>>
    ensures words { IfOk result (λ found. spec.plain (reverse found.items) ≡ words.now) }
    ensures matched { IfOk result (λ found. spec.AreMatched (reverse found.items)) }
{
    let mut found: Vec<Matched> = Vec::new(alloc);
    let mut closings: Vec<usize> = Vec::new(alloc);
    let mut at = words.len();
    while 0 < at {
        at -= 1;
        let word = words[at];
        let after = found.len();
        let inside = after - last_or_zero(&closings);
        found.push(Matched { word, inside })?;
        if word.mark.opens() {
            drop_last(&mut closings);
        } else if word.mark.closes() {
            closings.push(after + 1)?;
        }
    }
    Ok(found)
}

/// The words with their brackets matched.
pub fn match_brackets(alloc: Global, words: Vec<Word>) -> Mem<Vec<Matched>>
    ensures words { IfOk result (λ found. spec.plain found.items ≡ words.items) }
    ensures matched { IfOk result (λ found. spec.AreMatched found.items) }
{
    let mut found = match_backwards(alloc, &words)?;
    found.reverse();
    Ok(found)
}
