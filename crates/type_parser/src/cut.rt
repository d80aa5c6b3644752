//! Where brackets end, and where lists are cut.

ghost use Rattle.std.specs.Prelude.{◌≡◌, ◌≤◌, length, drop, take};
ghost use Rattle.type_parser.specs.Cut as spec;
ghost use Rattle.type_parser.specs.Matching.{plain, AreMatched, stride};

use crate::matching::Matched;
use go_ast::Mark;

/// How many words the first one has with what it opens.
fn stride(items: &[Matched]) -> usize
    requires matched { AreMatched items.now }
    ensures value { result ≡ stride (plain items.now) }
    ensures within { result ≤ length items.now }
{
    match items {
        [] => 0,
        [first, rest @ ..] if first.word.mark.opens() => {
            let inside = first.inside.min(rest.len());
            (inside + 1).min(rest.len()) + 1
        }
        _ => 1,
    }
}

/// How many words stand before the separator that is outside brackets, or all of them.
pub fn before(mark: Mark, items: &[Matched]) -> usize
    requires matched { AreMatched items.now }
    ensures value { result ≡ spec.before mark 0 (plain items.now) }
    ensures within { result ≤ length items.now }
{
    let mut at = 0;
    while at < items.len() {
        if items[at].word.mark.is(mark) {
            return at;
        }
        at += stride(&items[at..]);
    }
    at
}

/// What the first word, a bracket, encloses, and the words from the bracket on that closes it.
pub fn cut_bracket(items: &[Matched]) -> (&[Matched], &[Matched])
    requires { AreMatched items.now }
    ensures inner { plain result.0.now ≡ take (spec.inside 0 (drop 1 (plain items.now)))
        (drop 1 (plain items.now)) }
    ensures back { plain result.1.now ≡ drop (spec.inside 0 (drop 1 (plain items.now)))
        (drop 1 (plain items.now)) }
    ensures inner_matched { AreMatched result.0.now }
    ensures back_matched { AreMatched result.1.now }
{
    match items {
        [] => (&[], &[]),
        [first, rest @ ..] => rest.split_at(first.inside.min(rest.len())),
    }
}
