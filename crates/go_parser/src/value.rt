//! Constants and variables (Go specification, "Constant declarations", "Variable declarations").

ghost use Rattle.std.specs.Prelude.{◌≡◌, IfOk, ◌∷◌};
ghost use Rattle.go_parser.specs.Reading as spec;

use crate::group::ReadSpec;
use crate::read::Read;
use go_ast::{Mark, Seq, Span, TokenRange, TypeExpr, ValueSpec};
use std::alloc::Global;
use type_parser::{Words, type_in};

/// The specs of constants, or else of variables.
#[derive(Clone, Copy)]
pub struct Values {
    /// Whether they are constants.
    pub constant: bool,
}

/// The names that the words begin with, and the type after them, where there is one.
fn typed(alloc: Global, words: &Words<'_>) -> Read<(Seq<Span>, Option<TypeExpr>)>
    ensures { IfOk result (λ o. o ≡ spec.read_typed words.now) }
{
    let mut names = Seq::new(alloc);
    let mut rest = words.all();
    while let Some((name, after)) = rest.split_first() {
        if !name.mark.is(Mark::Ident) {
            return Ok(None);
        }
        names.push(name.span)?;
        let Some((next, others)) = after.split_first() else {
            return Ok(Some((names, None)));
        };
        if !next.mark.is(Mark::Comma) {
            return match type_in(alloc, &after)? {
                None => Ok(None),
                Some(typ) => Ok(Some((names, Some(typ)))),
            };
        }
        rest = others;
    }
    Ok(None)
}

/// A spec without a value: names alone for constants, names and a type for variables.
fn unassigned(
    alloc: Global,
    constant: bool,
    tokens: TokenRange,
    words: &Words<'_>,
) -> Read<ValueSpec>
    ensures { IfOk result (λ o. o ≡ spec.read_unassigned constant tokens words.now) }
{
    match typed(alloc, words)? {
        Some((names, typ)) if typ.is_none() == constant => Ok(Some(ValueSpec {
            tokens,
            names,
            typ,
            value: None,
        })),
        _ => Ok(None),
    }
}

/// A spec with a value: names, perhaps with a type, and the words after `=`.
fn assigned(
    alloc: Global,
    tokens: TokenRange,
    front: &Words<'_>,
    run: &Words<'_>,
) -> Read<ValueSpec>
    ensures { IfOk result (λ o. o ≡ spec.read_assigned tokens front.now run.now) }
{
    if run.is_empty() {
        return Ok(None);
    }
    match typed(alloc, front)? {
        None => Ok(None),
        Some((names, typ)) => Ok(Some(ValueSpec {
            tokens,
            names,
            typ,
            value: Some(run.range()),
        })),
    }
}

impl ReadSpec<ValueSpec> for Values {
    ghost use Rattle.go_parser.specs.Reading.{read_value_spec};

    ghost reads = { λ values. read_value_spec values.constant };

    #[tactic(auto, unfolding(crate::specs::Reading::read_value_spec))]
    fn read(&self, alloc: Global, words: &Words<'_>) -> Read<ValueSpec> {
        if words.is_empty() {
            return Ok(None);
        }
        let tokens = words.range();
        match words.split_once(Mark::Equal) {
            None => unassigned(alloc, self.constant, tokens, words),
            Some((front, run)) => assigned(alloc, tokens, &front, &run),
        }
    }
}
