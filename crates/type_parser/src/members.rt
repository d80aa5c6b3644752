//! Fields and elements (Go specification, "Struct types", "Interface types").

ghost use Rattle.std.specs.Prelude.{◌≡◌, IfOk, ◌∷◌};
ghost use Rattle.go_ast.specs.Types as grammar;
ghost use Rattle.type_parser.specs.Matching as matching;
ghost use Rattle.type_parser.specs.Members as members;
ghost use Rattle.type_parser.specs.Reading as spec;
ghost use Rattle.type_parser.specs.Parts.{ReadsParts};

use crate::reader::{Read, Reader, not_empty};
use crate::signature::looks_named;
use crate::words::Words;
use go_ast::{Element, Field, Mark, Seq, Span, Term, TypeExpr, Word};
use std::alloc::Global;

/// The words without the tag that ends them, and the tag.
#[tactic(auto, using(crate::proofs::FieldNames::tag_is, crate::proofs::FieldNames::no_tag_is))]
fn split_tag<'a>(words: &Words<'a>) -> (Words<'a>, Option<Span>)
    ensures { result ≡ grammar.split_tag words.now }
{
    let Some((front, last)) = words.split_last() else {
        return (words.all(), None);
    };
    if last.mark.is(Mark::Text) {
        (front, Some(last.span))
    } else {
        (words.all(), None)
    }
}

/// Whether an element begins as a method does.
#[tactic(auto, unfolding(crate::specs::Reading::is_method))]
fn is_method(name: &Word, words: &Words<'_>) -> bool
    ensures { result ≡ spec.is_method name.now words.now }
{
    match words.split_first() {
        None => false,
        Some((next, _)) => name.mark.is(Mark::Ident) && next.mark.is(Mark::OpenParen),
    }
}

#[tactic(auto, using(crate::proofs::FieldNames::bar_is))]
fn ends_with_bar(words: &Words<'_>) -> bool
    ensures { result ≡ members.ends_with_bar words.now }
{
    match words.split_last() {
        None => false,
        Some((_, last)) => last.mark.is(Mark::Bar),
    }
}

impl<F: Fn(Global, usize, &Words<'_>) -> Read<TypeExpr>> Reader<F> {
    /// Names with commas between, and their type.
    pub fn declared(&self, words: &Words<'_>) -> Read<(Seq<Span>, TypeExpr)>
        requires { ReadsParts self.now.levels (F.pre self.now.part) (F.post self.now.part) }
        ensures { IfOk result (λ o. o ≡ spec.declared (spec.type_of self.now.levels) words.now) }
    {
        let mut names = Seq::new(self.alloc);
        let mut rest = words.all();
        while let Some((name, after)) = rest.split_first() {
            let Some((next, others)) = after.split_first() else {
                return Ok(None);
            };
            if !name.mark.is(Mark::Ident) {
                return Ok(None);
            }
            names.push(name.span)?;
            if !next.mark.is(Mark::Comma) {
                return match self.part(&after)? {
                    None => Ok(None),
                    Some(typ) => Ok(Some((names, typ))),
                };
            }
            rest = others;
        }
        Ok(None)
    }

    /// The type of an embedded field.
    fn embedded(&self, words: &Words<'_>) -> Read<(Seq<Span>, TypeExpr)>
        requires { ReadsParts self.now.levels (F.pre self.now.part) (F.post self.now.part) }
        ensures { IfOk result (λ o. o ≡ spec.embedded (spec.type_of self.now.levels) words.now) }
    {
        match self.part(words)? {
            None => Ok(None),
            Some(typ) => Ok(Some((Seq::new(self.alloc), typ))),
        }
    }

    /// A field without its tag.
    #[tactic(auto, unfolding(crate::specs::Reading::field_body))]
    fn field_body(&self, words: &Words<'_>) -> Read<(Seq<Span>, TypeExpr)>
        requires { ReadsParts self.now.levels (F.pre self.now.part) (F.post self.now.part) }
        ensures { IfOk result (λ o. o ≡ spec.field_body (spec.type_of self.now.levels) words.now) }
    {
        let Some((first, rest)) = words.split_first() else {
            return Ok(None);
        };
        if let Some((second, _)) = rest.split_first() {
            if first.mark.is(Mark::Star) {
                return if second.mark.is(Mark::Ident) {
                    self.embedded(words)
                } else {
                    Ok(None)
                };
            }
            if looks_named(words) {
                return self.declared(words);
            }
        }
        if first.mark.is(Mark::Ident) {
            self.embedded(words)
        } else {
            Ok(None)
        }
    }

    /// A field with its tag.
    #[tactic(auto, unfolding(crate::specs::Reading::read_field))]
    fn field(&self, words: &Words<'_>) -> Read<Field>
        requires { ReadsParts self.now.levels (F.pre self.now.part) (F.post self.now.part) }
        ensures { IfOk result (λ o. o ≡ spec.read_field (spec.type_of self.now.levels) words.now) }
    {
        if words.is_empty() {
            return Ok(None);
        }
        let (body, tag) = split_tag(words);
        match self.field_body(&body)? {
            None => Ok(None),
            Some((names, typ)) => Ok(Some(Field {
                tokens: words.range(),
                names,
                typ,
                tag,
            })),
        }
    }

    /// The fields between semicolons.
    fn fields(&self, words: &Words<'_>) -> Read<Seq<Field>>
        requires { ReadsParts self.now.levels (F.pre self.now.part) (F.post self.now.part) }
        ensures { IfOk result
            (λ o. o ≡ members.fields_in (spec.type_of self.now.levels) words.now) }
    {
        let mut found = Seq::new(self.alloc);
        let mut rest = words.all();
        while !rest.is_empty() {
            let (piece, after) = rest.split_piece(Mark::Semi);
            match self.field(&piece)? {
                None => return Ok(None),
                Some(x) => found.push(x)?,
            }
            rest = after;
        }
        Ok(Some(found))
    }

    /// A struct, after `struct`.
    #[tactic(auto, unfolding(crate::specs::Reading::structure, crate::specs::Members::fields_in))]
    pub fn structure(&self, words: &Words<'_>) -> Read<TypeExpr>
        requires { ReadsParts self.now.levels (F.pre self.now.part) (F.post self.now.part) }
        ensures { IfOk result (λ o. o ≡ spec.structure (spec.type_of self.now.levels) words.now) }
    {
        let Some((first, _)) = words.split_first() else {
            return Ok(None);
        };
        if !first.mark.is(Mark::OpenBrace) {
            return Ok(None);
        }
        let Some(inner) = words.alone(Mark::CloseBrace) else {
            return Ok(None);
        };
        match self.fields(&inner)? {
            None => Ok(None),
            Some(fields) => Ok(Some(TypeExpr::Struct(fields))),
        }
    }

    /// A term of a union.
    #[tactic(auto, unfolding(crate::specs::Reading::read_term))]
    fn term(&self, words: &Words<'_>) -> Read<Term>
        requires { ReadsParts self.now.levels (F.pre self.now.part) (F.post self.now.part) }
        ensures { IfOk result (λ o. o ≡ spec.read_term (spec.type_of self.now.levels) words.now) }
    {
        match words.split_first() {
            None => Ok(None),
            Some((first, rest)) if first.mark.is(Mark::Tilde) => match self.part(&rest)? {
                None => Ok(None),
                Some(typ) => Ok(Some(Term { tilde: true, typ })),
            },
            _ => match self.part(words)? {
                None => Ok(None),
                Some(typ) => Ok(Some(Term { tilde: false, typ })),
            },
        }
    }

    /// The terms between bars.
    fn all_terms(&self, words: &Words<'_>) -> Read<Seq<Term>>
        requires { ReadsParts self.now.levels (F.pre self.now.part) (F.post self.now.part) }
        ensures { IfOk result
            (λ o. o ≡ members.terms_in (spec.type_of self.now.levels) words.now) }
    {
        let mut found = Seq::new(self.alloc);
        let mut rest = words.all();
        while !rest.is_empty() {
            let (piece, after) = rest.split_piece(Mark::Bar);
            match self.term(&piece)? {
                None => return Ok(None),
                Some(x) => found.push(x)?,
            }
            rest = after;
        }
        Ok(Some(found))
    }

    /// The terms of a union, of which there is at least one.
    #[tactic(auto, unfolding(crate::specs::Reading::read_terms, crate::specs::Members::terms_in))]
    pub fn terms(&self, words: &Words<'_>) -> Read<Seq<Term>>
        requires { ReadsParts self.now.levels (F.pre self.now.part) (F.post self.now.part) }
        ensures { IfOk result (λ o. o ≡ spec.read_terms (spec.type_of self.now.levels) words.now) }
    {
        if words.is_empty() || ends_with_bar(words) {
            return Ok(None);
        }
        match self.all_terms(words)? {
            None => Ok(None),
            Some(terms) => Ok(not_empty(terms)),
        }
    }

    /// A method with this name, which is the first of the words.
    fn method(&self, name: &Word, words: &Words<'_>, rest: &Words<'_>) -> Read<Element>
        requires parts { ReadsParts self.now.levels (F.pre self.now.part) (F.post self.now.part) }
        requires whole { words.now ≡ name.now ∷ rest.now }
        ensures { IfOk result
            (λ o. o ≡ members.method (spec.type_of self.now.levels) name.now rest.now) }
    {
        match self.signature(rest)? {
            None => Ok(None),
            Some(sig) => Ok(Some(Element::Method {
                tokens: words.range(),
                name: name.span,
                sig,
            })),
        }
    }

    /// An element of an interface.
    #[tactic(auto, unfolding(crate::specs::Reading::read_element))]
    fn element(&self, words: &Words<'_>) -> Read<Element>
        requires { ReadsParts self.now.levels (F.pre self.now.part) (F.post self.now.part) }
        ensures { IfOk result
            (λ o. o ≡ spec.read_element (spec.type_of self.now.levels) words.now) }
    {
        let Some((first, rest)) = words.split_first() else {
            return Ok(None);
        };
        if is_method(&first, &rest) {
            return self.method(&first, words, &rest);
        }
        match self.terms(words)? {
            None => Ok(None),
            Some(terms) => Ok(Some(Element::Terms {
                tokens: words.range(),
                terms,
            })),
        }
    }

    /// The elements between semicolons.
    fn elements(&self, words: &Words<'_>) -> Read<Seq<Element>>
        requires { ReadsParts self.now.levels (F.pre self.now.part) (F.post self.now.part) }
        ensures { IfOk result
            (λ o. o ≡ members.elements_in (spec.type_of self.now.levels) words.now) }
    {
        let mut found = Seq::new(self.alloc);
        let mut rest = words.all();
        while !rest.is_empty() {
            let (piece, after) = rest.split_piece(Mark::Semi);
            match self.element(&piece)? {
                None => return Ok(None),
                Some(x) => found.push(x)?,
            }
            rest = after;
        }
        Ok(Some(found))
    }

    /// An interface, after `interface`.
    #[tactic(auto, unfolding(crate::specs::Reading::interface, crate::specs::Members::elements_in))]
    pub fn interface(&self, words: &Words<'_>) -> Read<TypeExpr>
        requires { ReadsParts self.now.levels (F.pre self.now.part) (F.post self.now.part) }
        ensures { IfOk result (λ o. o ≡ spec.interface (spec.type_of self.now.levels) words.now) }
    {
        let Some((first, _)) = words.split_first() else {
            return Ok(None);
        };
        if !first.mark.is(Mark::OpenBrace) {
            return Ok(None);
        }
        let Some(inner) = words.alone(Mark::CloseBrace) else {
            return Ok(None);
        };
        match self.elements(&inner)? {
            None => Ok(None),
            Some(elements) => Ok(Some(TypeExpr::Interface(elements))),
        }
    }
}
