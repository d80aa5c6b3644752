//! Type parameters (Go specification, "Type parameter declarations").

ghost use Rattle.std.specs.Prelude.{◌≡◌, IfOk, reverse};
ghost use Rattle.std.specs.Option.{option_copied};
ghost use Rattle.std.specs.List.{list_any};
ghost use Rattle.go_ast.specs.Cutting.{pieces};
ghost use Rattle.go_ast.specs.TypeParameters as rule;
ghost use Rattle.go_ast.specs.declared.word.Mark.TheVariants as marks;
ghost use Rattle.type_parser.specs.Reading as reading;
ghost use Rattle.type_parser.specs.TypeParams as spec;
ghost use Rattle.type_parser.specs.Parts.{ReadsParts};

use crate::reader::{Read, Reader, not_empty};
use crate::signature::entries_of;
use crate::words::Words;
use go_ast::{Mark, Seq, Shared, TypeExpr, TypeParam, Word};
use std::alloc::Global;

impl<F: Fn(Global, usize, &Words<'_>) -> Read<TypeExpr>> Reader<F> {
    /// An entry, before the type parameter of the next.
    #[tactic(auto, unfolding(crate::specs::TypeParams::entry))]
    fn type_param(&self, entry: &Words<'_>, next: Option<&TypeParam>) -> Read<TypeParam>
        requires { ReadsParts self.now.levels (F.pre self.now.part) (F.post self.now.part) }
        ensures { IfOk result (λ o. o
            ≡ spec.entry (reading.type_of self.now.levels) entry.now (option_copied next.entry)) }
    {
        let Some((name, rest)) = entry.split_first() else {
            return Ok(None);
        };
        if !name.mark.is(Mark::Ident) {
            return Ok(None);
        }
        if rest.is_empty() {
            return match next {
                None => Ok(None),
                Some(next) => Ok(Some(TypeParam {
                    name: name.span,
                    bound: next.bound.share()?,
                    shares: true,
                })),
            };
        }
        match self.terms(&rest)? {
            None => Ok(None),
            Some(bound) => Ok(Some(TypeParam {
                name: name.span,
                bound: Shared::new(self.alloc, bound)?,
                shares: false,
            })),
        }
    }

    /// The type parameters of some entries, from the last to the first.
    fn type_params_of(&self, entries: &[Words<'_>]) -> Read<Seq<TypeParam>>
        requires { ReadsParts self.now.levels (F.pre self.now.part) (F.post self.now.part) }
        ensures { IfOk result
            (λ o. o ≡ spec.entries (reading.type_of self.now.levels) entries.now) }
    {
        let mut found: Vec<TypeParam> = Vec::new(self.alloc);
        let mut at = entries.len();
        while 0 < at {
            at -= 1;
            match self.type_param(&entries[at], found.last())? {
                None => return Ok(None),
                Some(param) => found.push(param)?,
            }
        }
        found.reverse();
        Ok(Some(Seq::from_vec(found)))
    }

    /// The type parameters that words between brackets spell, of which there is at least one.
    #[tactic(auto, unfolding(crate::specs::TypeParams::read_entries))]
    pub fn type_params(&self, words: &Words<'_>) -> Read<Seq<TypeParam>>
        requires { ReadsParts self.now.levels (F.pre self.now.part) (F.post self.now.part) }
        ensures { IfOk result
            (λ o. o ≡ spec.read_entries (reading.type_of self.now.levels) words.now) }
    {
        let entries = entries_of(self.alloc, words)?;
        match self.type_params_of(&entries)? {
            None => Ok(None),
            Some(found) => Ok(not_empty(found)),
        }
    }
}

/// Whether no comma stands outside brackets.
fn is_one_piece(words: &Words<'_>) -> bool
    ensures { result ≡ rule.is_one_piece (pieces marks.Comma words.now) }
{
    if words.is_empty() {
        return false;
    }
    let (_, rest) = words.split_piece(Mark::Comma);
    rest.is_empty()
}

#[tactic(auto, using(crate::proofs::Pieces::comma_is))]
fn ends_with_comma(words: &Words<'_>) -> bool
    ensures { result ≡ rule.ends_with_comma words.now }
{
    match words.split_last() {
        None => false,
        Some((_, last)) => last.mark.is(Mark::Comma),
    }
}

fn second_is_star_or_paren(words: &Words<'_>) -> bool
    ensures { result ≡ rule.second_is_star_or_paren words.now }
{
    let Some((_, rest)) = words.split_first() else {
        return false;
    };
    match rest.split_first() {
        None => false,
        Some((second, _)) => second.mark.is(Mark::Star) || second.mark.is(Mark::OpenParen),
    }
}

/// Whether it is a token that no length has where type parameters may stand.
#[tactic(auto, unfolding(go_ast::specs::Marks::same_mark))]
fn shows_bound(word: &Word) -> bool
    ensures { result ≡ rule.shows_bound word.now }
{
    matches!(
        word.mark,
        Mark::Tilde
            | Mark::Interface
            | Mark::Struct
            | Mark::Func
            | Mark::Map
            | Mark::Chan
            | Mark::OpenBracket
    )
}

/// Whether some word shows that the words are no length.
fn some_shows_bound(words: &Words<'_>) -> bool
    ensures { result ≡ list_any rule.shows_bound words.now }
{
    let mut rest = words.all();
    while let Some((word, after)) = rest.split_first() {
        if shows_bound(&word) {
            return true;
        }
        rest = after;
    }
    false
}

/// Whether the words could be a product or a call, as the length of an array is, and nothing shows
/// that they are none.
#[tactic(auto, unfolding(go_ast::specs::TypeParameters::is_array_like))]
pub fn is_array_like(words: &Words<'_>) -> bool
    ensures { result ≡ rule.is_array_like words.now }
{
    is_one_piece(words)
        && !ends_with_comma(words)
        && second_is_star_or_paren(words)
        && !some_shows_bound(words)
}
