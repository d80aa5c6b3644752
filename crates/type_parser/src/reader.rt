//! The type that words spell, read by the first of them.

ghost use Rattle.std.specs.Prelude.{◌≡◌, IfOk, drop, length, ◌<◌};
ghost use Rattle.type_parser.specs.Reading as spec;
ghost use Rattle.type_parser.specs.Parts.{ReadsParts};

use crate::words::Words;
use go_ast::{ChanDir, Mark, Mem, Seq, Span, TypeExpr, Word};
use sqlite_items::Boxed;
use std::alloc::Global;

/// What is read, or nothing, or no memory.
pub type Read<T> = Mem<Option<T>>;

/// Reads a type, whose parts have at most this many levels and are read by a function that is
/// passed.
#[derive(Clone, Copy)]
pub struct Reader<F> {
    /// Where memory comes from.
    pub alloc: Global,
    /// How many levels the parts may have.
    pub levels: usize,
    /// What reads the parts.
    pub part: F,
}

/// A slice of this type, or an array where the brackets hold a length.
fn array_or_slice(alloc: Global, inner: &Words<'_>, elem: TypeExpr) -> Mem<TypeExpr>
    ensures { IfOk result (λ x. x ≡ spec.array_or_slice inner.now elem) }
{
    let elem = Boxed::new(alloc, elem)?;
    if inner.is_empty() {
        Ok(TypeExpr::Slice(elem))
    } else {
        Ok(TypeExpr::Array {
            length: inner.range(),
            elem,
        })
    }
}

/// A sequence that has a value.
pub fn not_empty<T: Drop>(items: Seq<T>) -> Option<Seq<T>>
    ensures { result ≡ spec.not_empty items }
{
    if items.is_empty() { None } else { Some(items) }
}

impl<F: Fn(Global, usize, &Words<'_>) -> Read<TypeExpr>> Reader<F> {
    /// A part of the type.
    pub fn part(&self, words: &Words<'_>) -> Read<TypeExpr>
        requires { ReadsParts self.now.levels (F.pre self.now.part) (F.post self.now.part) }
        ensures { IfOk result (λ o. o ≡ spec.type_of self.now.levels words.now) }
    {
        (self.part)(self.alloc, self.levels, words)
    }

    /// The types between commas, of which there is at least one.
    fn list(&self, words: &Words<'_>) -> Read<Seq<TypeExpr>>
        requires { ReadsParts self.now.levels (F.pre self.now.part) (F.post self.now.part) }
        ensures { IfOk result (λ o. o ≡ spec.list (spec.type_of self.now.levels) words.now) }
    {
        let mut found = Seq::new(self.alloc);
        let mut rest = words.all();
        while !rest.is_empty() {
            let (piece, after) = rest.split_piece(Mark::Comma);
            match self.part(&piece)? {
                None => return Ok(None),
                Some(x) => found.push(x)?,
            }
            rest = after;
        }
        Ok(not_empty(found))
    }

    /// Nothing, or type arguments in brackets.
    #[tactic(auto, unfolding(crate::specs::Reading::arguments))]
    fn arguments(&self, words: &Words<'_>) -> Read<Seq<TypeExpr>>
        requires { ReadsParts self.now.levels (F.pre self.now.part) (F.post self.now.part) }
        ensures { IfOk result (λ o. o ≡ spec.arguments (spec.type_of self.now.levels) words.now) }
    {
        let Some((first, _)) = words.split_first() else {
            return Ok(Some(Seq::new(self.alloc)));
        };
        if !first.mark.is(Mark::OpenBracket) {
            return Ok(None);
        }
        match words.alone(Mark::CloseBracket) {
            None => Ok(None),
            Some(inner) => self.list(&inner),
        }
    }

    /// A name with its type arguments, after what qualifies it.
    #[tactic(auto, unfolding(crate::specs::Reading::named))]
    fn named(&self, qualifier: Option<Span>, name: &Word, words: &Words<'_>) -> Read<TypeExpr>
        requires { ReadsParts self.now.levels (F.pre self.now.part) (F.post self.now.part) }
        ensures { IfOk result
            (λ o. o ≡ spec.named (spec.type_of self.now.levels) qualifier name.now words.now) }
    {
        if !name.mark.is(Mark::Ident) {
            return Ok(None);
        }
        match self.arguments(words)? {
            None => Ok(None),
            Some(args) => Ok(Some(TypeExpr::Name {
                qualifier,
                name: name.span,
                args,
            })),
        }
    }

    /// A name after the dot that follows the first.
    fn qualified(&self, first: Span, words: &Words<'_>) -> Read<TypeExpr>
        requires { ReadsParts self.now.levels (F.pre self.now.part) (F.post self.now.part) }
        ensures { IfOk result
            (λ o. o ≡ spec.qualified (spec.type_of self.now.levels) first words.now) }
    {
        match words.split_first() {
            None => Ok(None),
            Some((name, rest)) => self.named(Some(first), &name, &rest),
        }
    }

    /// A name, which may be qualified.
    #[tactic(auto, unfolding(crate::specs::Reading::name))]
    fn name(&self, first: &Word, words: &Words<'_>) -> Read<TypeExpr>
        requires { ReadsParts self.now.levels (F.pre self.now.part) (F.post self.now.part) }
        ensures { IfOk result
            (λ o. o ≡ spec.name (spec.type_of self.now.levels) first.now words.now) }
    {
        match words.split_first() {
            Some((dot, rest)) if dot.mark.is(Mark::Dot) => self.qualified(first.span, &rest),
            _ => self.named(None, first, words),
        }
    }

    /// A slice or an array with what its brackets hold.
    fn bracketed_of(&self, inner: &Words<'_>, rest: &Words<'_>) -> Read<TypeExpr>
        requires { ReadsParts self.now.levels (F.pre self.now.part) (F.post self.now.part) }
        ensures { IfOk result
            (λ o. o ≡ spec.bracketed_of (spec.type_of self.now.levels) (inner.now, rest.now)) }
    {
        if !inner.may_be_length(self.alloc)? {
            return Ok(None);
        }
        match self.part(rest)? {
            None => Ok(None),
            Some(elem) => Ok(Some(array_or_slice(self.alloc, inner, elem)?)),
        }
    }

    /// A slice or an array, whose opening bracket is the first word.
    #[tactic(auto, unfolding(crate::specs::Reading::bracketed))]
    fn bracketed(&self, words: &Words<'_>) -> Read<TypeExpr>
        requires { ReadsParts self.now.levels (F.pre self.now.part) (F.post self.now.part) }
        ensures { IfOk result
            (λ o. o ≡ spec.bracketed (spec.type_of self.now.levels) (drop 1 words.now)) }
    {
        match words.enclosed(Mark::CloseBracket) {
            None => Ok(None),
            Some((inner, rest)) => self.bracketed_of(&inner, &rest),
        }
    }

    /// A map with these keys and values.
    fn map_of(&self, inner: &Words<'_>, rest: &Words<'_>) -> Read<TypeExpr>
        requires { ReadsParts self.now.levels (F.pre self.now.part) (F.post self.now.part) }
        ensures { IfOk result
            (λ o. o ≡ spec.map_of (spec.type_of self.now.levels) (inner.now, rest.now)) }
    {
        let Some(key) = self.part(inner)? else {
            return Ok(None);
        };
        let Some(value) = self.part(rest)? else {
            return Ok(None);
        };
        Ok(Some(TypeExpr::Map {
            key: Boxed::new(self.alloc, key)?,
            value: Boxed::new(self.alloc, value)?,
        }))
    }

    /// A map, after `map`.
    #[tactic(auto, unfolding(crate::specs::Reading::map))]
    fn map(&self, words: &Words<'_>) -> Read<TypeExpr>
        requires { ReadsParts self.now.levels (F.pre self.now.part) (F.post self.now.part) }
        ensures { IfOk result (λ o. o ≡ spec.map (spec.type_of self.now.levels) words.now) }
    {
        let Some((first, _)) = words.split_first() else {
            return Ok(None);
        };
        if !first.mark.is(Mark::OpenBracket) {
            return Ok(None);
        }
        match words.enclosed(Mark::CloseBracket) {
            None => Ok(None),
            Some((inner, rest)) => self.map_of(&inner, &rest),
        }
    }

    /// A channel of this type.
    fn channel_of(&self, dir: ChanDir, words: &Words<'_>) -> Read<TypeExpr>
        requires { ReadsParts self.now.levels (F.pre self.now.part) (F.post self.now.part) }
        ensures { IfOk result
            (λ o. o ≡ spec.channel_of (spec.type_of self.now.levels) dir words.now) }
    {
        match self.part(words)? {
            None => Ok(None),
            Some(elem) => Ok(Some(TypeExpr::Chan {
                dir,
                elem: Boxed::new(self.alloc, elem)?,
            })),
        }
    }

    /// A channel, after `chan`.
    #[tactic(auto, unfolding(crate::specs::Reading::channel))]
    fn channel(&self, words: &Words<'_>) -> Read<TypeExpr>
        requires { ReadsParts self.now.levels (F.pre self.now.part) (F.post self.now.part) }
        ensures { IfOk result (λ o. o ≡ spec.channel (spec.type_of self.now.levels) words.now) }
    {
        match words.split_first() {
            None => Ok(None),
            Some((first, rest)) if first.mark.is(Mark::Arrow) => {
                self.channel_of(ChanDir::Send, &rest)
            }
            _ => self.channel_of(ChanDir::Both, words),
        }
    }

    /// A channel, after `<-`.
    #[tactic(auto, unfolding(crate::specs::Reading::receiving))]
    fn receiving(&self, words: &Words<'_>) -> Read<TypeExpr>
        requires { ReadsParts self.now.levels (F.pre self.now.part) (F.post self.now.part) }
        ensures { IfOk result (λ o. o ≡ spec.receiving (spec.type_of self.now.levels) words.now) }
    {
        match words.split_first() {
            Some((first, rest)) if first.mark.is(Mark::Chan) => {
                self.channel_of(ChanDir::Receive, &rest)
            }
            _ => Ok(None),
        }
    }

    /// A pointer, after `*`.
    fn pointer(&self, words: &Words<'_>) -> Read<TypeExpr>
        requires { ReadsParts self.now.levels (F.pre self.now.part) (F.post self.now.part) }
        ensures { IfOk result (λ o. o ≡ spec.pointer (spec.type_of self.now.levels) words.now) }
    {
        match self.part(words)? {
            None => Ok(None),
            Some(elem) => Ok(Some(TypeExpr::Pointer(Boxed::new(self.alloc, elem)?))),
        }
    }

    /// A function, after `func`.
    fn function(&self, words: &Words<'_>) -> Read<TypeExpr>
        requires { ReadsParts self.now.levels (F.pre self.now.part) (F.post self.now.part) }
        ensures { IfOk result (λ o. o ≡ spec.function (spec.type_of self.now.levels) words.now) }
    {
        match self.signature(words)? {
            None => Ok(None),
            Some(sig) => Ok(Some(TypeExpr::Func(sig))),
        }
    }

    /// A type in parentheses, whose opening one is the first word.
    fn in_parentheses(&self, words: &Words<'_>) -> Read<TypeExpr>
        requires { ReadsParts self.now.levels (F.pre self.now.part) (F.post self.now.part) }
        ensures { IfOk result
            (λ o. o ≡ spec.in_parentheses (spec.type_of self.now.levels) (drop 1 words.now)) }
    {
        match words.alone(Mark::CloseParen) {
            None => Ok(None),
            Some(inner) => self.part(&inner),
        }
    }

    /// The type, by the first of its words.
    pub fn step(&self, words: &Words<'_>) -> Read<TypeExpr>
        requires { ReadsParts self.now.levels (F.pre self.now.part) (F.post self.now.part) }
        ensures { IfOk result (λ o. o ≡ spec.step (spec.type_of self.now.levels) words.now) }
    {
        let Some((first, rest)) = words.split_first() else {
            return Ok(None);
        };
        match first.mark {
            Mark::Ident => self.name(&first, &rest),
            Mark::OpenParen => self.in_parentheses(words),
            Mark::Star => self.pointer(&rest),
            Mark::Func => self.function(&rest),
            Mark::OpenBracket => self.bracketed(words),
            Mark::Map => self.map(&rest),
            Mark::Chan => self.channel(&rest),
            Mark::Arrow => self.receiving(&rest),
            Mark::Struct => self.structure(&rest),
            Mark::Interface => self.interface(&rest),
            _ => Ok(None),
        }
    }
}

/// The type of at most this many levels that the words spell.
pub fn type_of(alloc: Global, levels: usize, words: &Words<'_>) -> Read<TypeExpr>
    ensures { IfOk result (λ o. o ≡ spec.type_of levels words.now) }
{
    if levels == 0 {
        return Ok(None);
    }
    Reader {
        alloc,
        levels: levels - 1,
        part: type_of,
    }
    .step(words)
}
