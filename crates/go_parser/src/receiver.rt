//! Receivers (Go specification, "Method declarations").

ghost use Rattle.std.specs.Prelude.{◌≡◌, IfOk};
ghost use Rattle.go_parser.specs.Reading as spec;

use crate::read::Read;
use go_ast::{Mark, Receiver, Seq, Span, Word};
use std::alloc::Global;
use type_parser::Words;

fn name(words: &Words<'_>) -> Option<Span>
    ensures { result ≡ spec.read_name words.now }
{
    match words.split_first() {
        Some((first, rest)) if rest.is_empty() && first.mark.is(Mark::Ident) => Some(first.span),
        _ => None,
    }
}

/// The names between commas, of which there is at least one.
#[tactic(auto, unfolding(crate::specs::Reading::names_in))]
fn names(alloc: Global, words: &Words<'_>) -> Read<Seq<Span>>
    ensures { IfOk result (λ o. o ≡ spec.names_in words.now) }
{
    let mut found = Seq::new(alloc);
    let mut rest = words.all();
    while !rest.is_empty() {
        let (piece, after) = rest.split_piece(Mark::Comma);
        match name(&piece) {
            None => return Ok(None),
            Some(x) => found.push(x)?,
        }
        rest = after;
    }
    if found.is_empty() {
        return Ok(None);
    }
    Ok(Some(found))
}

/// The names of type parameters in brackets, or none where there is no word.
#[tactic(auto, unfolding(crate::specs::Reading::read_receiver_params))]
fn params(alloc: Global, words: &Words<'_>) -> Read<Seq<Span>>
    ensures { IfOk result (λ o. o ≡ spec.read_receiver_params words.now) }
{
    let Some((first, _)) = words.split_first() else {
        return Ok(Some(Seq::new(alloc)));
    };
    if !first.mark.is(Mark::OpenBracket) {
        return Ok(None);
    }
    match words.alone(Mark::CloseBracket) {
        None => Ok(None),
        Some(inner) => names(alloc, &inner),
    }
}

/// A receiver with this name or none, whose type's name and parameters are the words.
fn base(alloc: Global, name: Option<Span>, pointer: bool, words: &Words<'_>) -> Read<Receiver>
    ensures { IfOk result (λ o. o ≡ spec.read_base name pointer words.now) }
{
    let Some((base, rest)) = words.split_first() else {
        return Ok(None);
    };
    if !base.mark.is(Mark::Ident) {
        return Ok(None);
    }
    match params(alloc, &rest)? {
        None => Ok(None),
        Some(params) => Ok(Some(Receiver {
            name,
            pointer,
            base: base.span,
            params,
        })),
    }
}

/// A receiver with this name or none, whose type is the words.
#[tactic(auto, unfolding(crate::specs::Reading::read_receiver_type))]
fn receiver_type(alloc: Global, name: Option<Span>, words: &Words<'_>) -> Read<Receiver>
    ensures { IfOk result (λ o. o ≡ spec.read_receiver_type name words.now) }
{
    match words.split_first() {
        None => Ok(None),
        Some((first, rest)) if first.mark.is(Mark::Star) => base(alloc, name, true, &rest),
        _ => base(alloc, name, false, words),
    }
}

/// Whether a word may follow the name of a receiver.
fn begins_type(word: &Word) -> bool
    ensures { result ≡ spec.begins_receiver_type word.now }
{
    word.mark.is(Mark::Ident) || word.mark.is(Mark::Star)
}

/// The receiver that the words spell, which has a name where a type follows its first word.
fn receiver(alloc: Global, words: &Words<'_>) -> Read<Receiver>
    ensures { IfOk result (λ o. o ≡ spec.read_receiver words.now) }
{
    let Some((first, rest)) = words.split_first() else {
        return Ok(None);
    };
    match rest.split_first() {
        Some((next, _)) if first.mark.is(Mark::Ident) && begins_type(&next) => {
            receiver_type(alloc, Some(first.span), &rest)
        }
        _ => receiver_type(alloc, None, words),
    }
}

/// The one receiver between parentheses, after which a comma may stand.
pub fn only_receiver(alloc: Global, words: &Words<'_>) -> Read<Receiver>
    ensures { IfOk result (λ o. o ≡ spec.read_only_receiver words.now) }
{
    if words.is_empty() {
        return Ok(None);
    }
    let (entry, rest) = words.split_piece(Mark::Comma);
    if rest.is_empty() {
        receiver(alloc, &entry)
    } else {
        Ok(None)
    }
}
