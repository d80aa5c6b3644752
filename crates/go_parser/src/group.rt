//! A keyword's one spec, or its specs in parentheses.

ghost use Rattle.std.specs.Prelude.{◌≡◌, [], ◌∷◌, IfOk};
ghost use Rattle.go_parser.specs.Reading as spec;

use crate::read::Read;
use go_ast::{Group, Mark, Mem, Seq, TokenRange};
use std::alloc::Global;
use type_parser::Words;

/// What reads the specs of one keyword.
pub trait ReadSpec<S: Drop> {
    ghost use Rattle.std.specs.Prelude.{◌≡◌, IfOk, List, Option};
    ghost use Rattle.go_ast.specs.declared.word.Word.{Word};

    /// The spec that words spell.
    ghost reads: { Self → List Word → Option S };

    /// The spec that the words spell.
    fn read(&self, alloc: Global, words: &Words<'_>) -> Read<S>
        ensures { IfOk result (λ o. o ≡ reads self.now words.now) };
}

/// The specs between semicolons.
fn specs_in<S: Drop, R: ReadSpec<S>>(alloc: Global, reader: &R, words: &Words<'_>) -> Read<Seq<S>>
    ensures { IfOk result (λ o. o ≡ spec.specs_in (R.reads reader.now) words.now) }
{
    let mut found = Seq::new(alloc);
    let mut rest = words.all();
    while !rest.is_empty() {
        let (piece, after) = rest.split_piece(Mark::Semi);
        match reader.read(alloc, &piece)? {
            None => return Ok(None),
            Some(x) => found.push(x)?,
        }
        rest = after;
    }
    Ok(Some(found))
}

/// A sequence of one item.
fn one<S: Drop>(alloc: Global, item: S) -> Mem<Seq<S>>
    ensures { IfOk result (λ items. items ≡ item ∷ []) }
{
    let mut items = Seq::new(alloc);
    items.push(item)?;
    Ok(items)
}

/// What stands after the keyword of a declaration with these tokens: one spec, or specs in
/// parentheses.
#[tactic(auto, unfolding(crate::specs::Reading::read_group))]
pub fn group<S: Drop, R: ReadSpec<S>>(
    alloc: Global,
    reader: &R,
    tokens: TokenRange,
    words: &Words<'_>,
) -> Read<Group<S>>
    ensures { IfOk result (λ o. o ≡ spec.read_group (R.reads reader.now) tokens words.now) }
{
    let Some((first, _)) = words.split_first() else {
        return Ok(None);
    };
    if !first.mark.is(Mark::OpenParen) {
        return match reader.read(alloc, words)? {
            None => Ok(None),
            Some(spec) => Ok(Some(Group {
                tokens,
                grouped: false,
                specs: one(alloc, spec)?,
            })),
        };
    }
    let Some(inner) = words.alone(Mark::CloseParen) else {
        return Ok(None);
    };
    match specs_in(alloc, reader, &inner)? {
        None => Ok(None),
        Some(specs) => Ok(Some(Group {
            tokens,
            grouped: true,
            specs,
        })),
    }
}
