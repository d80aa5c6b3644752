//! Types (Go specification, "Type declarations").

ghost use Rattle.std.specs.Prelude.{◌≡◌, IfOk};
ghost use Rattle.go_parser.specs.Reading as spec;

use crate::group::ReadSpec;
use crate::read::Read;
use go_ast::{Mark, Seq, Span, TokenRange, TypeParam, TypeSpec};
use std::alloc::Global;
use type_parser::{Words, type_in, type_params_in};

/// The specs of types.
#[derive(Clone, Copy)]
pub struct Types;

/// The type parameters in brackets that the words begin with, and the words after them.
#[tactic(auto, unfolding(crate::specs::Reading::read_leading_params))]
fn leading_params<'a>(alloc: Global, words: &Words<'a>) -> Read<(Seq<TypeParam>, Words<'a>)>
    ensures { IfOk result (λ o. o ≡ spec.read_leading_params words.now) }
{
    let Some((first, _)) = words.split_first() else {
        return Ok(None);
    };
    if !first.mark.is(Mark::OpenBracket) {
        return Ok(None);
    }
    let Some((inner, rest)) = words.enclosed(Mark::CloseBracket) else {
        return Ok(None);
    };
    match type_params_in(alloc, &inner)? {
        None => Ok(None),
        Some(params) => Ok(Some((params, rest))),
    }
}

/// The spec with this name and these parameters, whose type is in the words.
fn spec_of(
    alloc: Global,
    tokens: TokenRange,
    name: Span,
    params: Seq<TypeParam>,
    alias: bool,
    words: &Words<'_>,
) -> Read<TypeSpec>
    ensures { IfOk result (λ o. o ≡ spec.read_spec_of tokens name params alias words.now) }
{
    match type_in(alloc, words)? {
        None => Ok(None),
        Some(typ) => Ok(Some(TypeSpec {
            tokens,
            name,
            params,
            alias,
            typ,
        })),
    }
}

/// The spec with this name and these parameters, which the words follow: a type, or `=` and a type.
fn declared_type(
    alloc: Global,
    tokens: TokenRange,
    name: Span,
    params: Seq<TypeParam>,
    words: &Words<'_>,
) -> Read<TypeSpec>
    ensures { IfOk result (λ o. o ≡ spec.read_declared_type tokens name params words.now) }
{
    match words.split_first() {
        None => Ok(None),
        Some((first, rest)) if first.mark.is(Mark::Equal) => {
            spec_of(alloc, tokens, name, params, true, &rest)
        }
        Some(_) => spec_of(alloc, tokens, name, params, false, words),
    }
}

/// The spec that begins with this name, which the words follow.
fn named(alloc: Global, tokens: TokenRange, name: Span, words: &Words<'_>) -> Read<TypeSpec>
    ensures { IfOk result (λ o. o ≡ spec.read_named_type tokens name words.now
        (spec.read_leading_params words.now)) }
{
    match leading_params(alloc, words)? {
        None => declared_type(alloc, tokens, name, Seq::new(alloc), words),
        Some((params, rest)) => declared_type(alloc, tokens, name, params, &rest),
    }
}

impl ReadSpec<TypeSpec> for Types {
    ghost use Rattle.go_parser.specs.Reading.{read_type_spec};

    ghost reads = { λ types. read_type_spec };

    #[tactic(auto, unfolding(crate::specs::Reading::read_type_spec))]
    fn read(&self, alloc: Global, words: &Words<'_>) -> Read<TypeSpec> {
        match words.split_first() {
            Some((name, rest)) if name.mark.is(Mark::Ident) => {
                named(alloc, words.range(), name.span, &rest)
            }
            _ => Ok(None),
        }
    }
}
