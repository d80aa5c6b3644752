//! Words whose brackets are matched, seen as the list of the words.

ghost use Rattle.std.specs.Prelude.{◌≡◌, ◌∷◌, [], ◌++◌, ◌<◌, ◌≤◌, ◌==◌, IfOk, length, drop};
ghost use Rattle.std.specs.Prelude.{MatchOption, unwrap_or};
ghost use Rattle.go_ast.specs.Marks.{words_of};
ghost use Rattle.type_parser.specs.Cut as cut;
ghost use Rattle.type_parser.specs.Reading as reading;
ghost use Rattle.go_ast.specs.Cutting as cutting;

use crate::cut::{before, cut_bracket};
use crate::mark::words_of;
use crate::matching::{Matched, match_brackets};
use crate::run::is_run;
use go_ast::{Mark, Mem, Token, TokenRange, Word};
use std::alloc::Global;
use std::marker::Model;

/// The words of some tokens of a source, with their brackets matched. Contracts see their list.
#[derive(Drop)]
pub struct MatchedWords {
    items: Vec<Matched>,
}

impl Model for MatchedWords {
    ghost use Rattle.std.specs.Prelude.{List};
    ghost use Rattle.go_ast.specs.declared.word.Word.{Word};
    ghost use Rattle.type_parser.specs.Matching.{plain, AreMatched};

    ghost Value = { List Word };

    ghost view = { λ words. plain words.items.items };

    ghost invariant = { λ words. AreMatched words.items.items };
}

impl MatchedWords {
    /// All words.
    pub fn all(&self) -> Words<'_>
        ensures { result ≡ self.now }
    {
        Words { items: &self.items }
    }
}

/// The words of a range of a source's tokens, with their brackets matched. The range counts places
/// in the list of tokens.
///
/// `NoMemory` comes where an allocation is refused.
pub fn matched_words(
    alloc: Global,
    source: &[u8],
    tokens: &[Token],
    range: TokenRange,
) -> Mem<MatchedWords>
    requires ordered { range.first ≤ range.after }
    requires within { range.after ≤ length tokens.now }
    ensures { IfOk result (λ words. words ≡ words_of source.now tokens.now range) }
{
    let words = words_of(alloc, source, tokens, range)?;
    let items = match_brackets(alloc, words)?;
    Ok(MatchedWords { items })
}

/// Words of a source, one after the other. Contracts see their list.
#[derive(Drop)]
pub struct Words<'a> {
    items: &'a [Matched],
}

impl<'a> Model for Words<'a> {
    ghost use Rattle.std.specs.Prelude.{List};
    ghost use Rattle.go_ast.specs.declared.word.Word.{Word};
    ghost use Rattle.type_parser.specs.Matching.{plain, AreMatched};

    ghost Value = { List Word };

    ghost view = { λ words. plain words.items.now };

    ghost invariant = { λ words. AreMatched words.items.now };
}

impl<'a> Words<'a> {
    /// Whether there is no word.
    pub fn is_empty(&self) -> bool
        ensures { result ≡ (length self.now == 0) }
    {
        self.items.is_empty()
    }

    /// The same words.
    pub fn all(&self) -> Words<'a>
        ensures { result ≡ self.now }
    {
        Words { items: self.items }
    }

    /// The first word, and those after it.
    pub fn split_first(&self) -> Option<(Word, Words<'a>)>
        ensures { MatchOption result (self.now ≡ []) (λ p. self.now ≡ p.0 ∷ p.1) }
    {
        match self.items {
            [] => None,
            [first, rest @ ..] => Some((first.word, Words { items: rest })),
        }
    }

    /// The words before the last, and the last.
    pub fn split_last(&self) -> Option<(Words<'a>, Word)>
        ensures { MatchOption result (self.now ≡ []) (λ p. self.now ≡ p.0 ++ p.1 ∷ []) }
    {
        match self.items {
            [] => None,
            [front @ .., last] => Some((Words { items: front }, last.word)),
        }
    }

    /// The tokens from the first word to the last, or no token where there is no word.
    pub fn range(&self) -> TokenRange
        ensures { result ≡ cutting.range_of_all self.now }
    {
        match self.items {
            [] => TokenRange { first: 0, after: 0 },
            [first, ..] => TokenRange {
                first: first.word.tokens.first,
                after: self.items[self.items.len() - 1].word.tokens.after,
            },
        }
    }

    /// What the first word, a bracket, encloses, where the bracket that closes it is this mark, and
    /// the words after that.
    #[tactic(auto, unfolding(crate::specs::Cut::enclosed))]
    pub fn enclosed(&self, close: Mark) -> Option<(Words<'a>, Words<'a>)>
        ensures { result ≡ cut.enclosed close (drop 1 self.now) }
    {
        let (inner, back) = cut_bracket(self.items);
        match back {
            [closing, rest @ ..] if closing.word.mark.is(close) => {
                Some((Words { items: inner }, Words { items: rest }))
            }
            _ => None,
        }
    }

    /// What the first word, a bracket, encloses, where the bracket that closes it is this mark and
    /// is the last word.
    #[tactic(auto, unfolding(crate::specs::Reading::alone))]
    pub fn alone(&self, close: Mark) -> Option<Words<'a>>
        ensures { result ≡ reading.alone close (drop 1 self.now) }
    {
        match self.enclosed(close) {
            Some((inner, rest)) if rest.is_empty() => Some(inner),
            _ => None,
        }
    }

    /// The words before the first separator outside brackets, and those after it, or `None` where
    /// no separator stands outside brackets.
    pub fn split_once(&self, separator: Mark) -> Option<(Words<'a>, Words<'a>)>
        ensures { result ≡ cutting.split_once separator self.now }
    {
        let (front, back) = self.items.split_at(before(separator, self.items));
        match back {
            [] => None,
            [_, rest @ ..] => Some((Words { items: front }, Words { items: rest })),
        }
    }

    /// The first of the pieces between separators outside brackets, and the words after its
    /// separator, of which there are none where no separator follows.
    pub fn split_piece(&self, mark: Mark) -> (Words<'a>, Words<'a>)
        requires { 0 < length self.now }
        ensures exact { result ≡ unwrap_or (cutting.split_once mark self.now) (self.now, []) }
        ensures pieces { cutting.pieces mark self.now ≡ result.0 ∷ cutting.pieces mark result.1 }
        ensures shorter { length result.1 < length self.now }
    {
        let (piece, rest) = self.items.split_at(before(mark, self.items));
        match rest {
            [] => (Words { items: self.items }, Words { items: &[] }),
            [_, rest @ ..] => (Words { items: piece }, Words { items: rest }),
        }
    }

    /// Whether the words may be the length of an array: there are none, or they are balanced by
    /// kind of bracket, with no semicolon outside brackets, and aren't three dots.
    #[tactic(auto, unfolding(crate::specs::Reading::may_be_length))]
    pub(crate) fn may_be_length(&self, alloc: Global) -> Mem<bool>
        ensures { IfOk result (λ may. may ≡ reading.may_be_length self.now) }
    {
        if self.items.is_empty() {
            Ok(true)
        } else {
            is_run(alloc, self.items)
        }
    }
}
