//! Parameters and results (Go specification, "Function types").

ghost use Rattle.std.specs.Prelude.{◌≡◌, IfOk, IfSome, ◌∷◌, [], ◌<◌, drop, length, reverse, true};
ghost use Rattle.std.specs.Prelude.{Some, List};
ghost use Rattle.std.specs.Option.{option_map};
ghost use Rattle.go_ast.specs.declared.tree.Param.{Param, out-Param};
ghost use Rattle.go_ast.specs.Types as rule;
ghost use Rattle.std.specs.List.{list_any};
ghost use Rattle.go_ast.specs.Cutting.{pieces};
ghost use Rattle.go_ast.specs.declared.word.Mark.TheVariants as marks;
ghost use Rattle.type_parser.specs.Reading as spec;
ghost use Rattle.type_parser.specs.Entries as backwards;
ghost use Rattle.type_parser.specs.Parts.{ReadsParts};

use crate::reader::{Read, Reader};
use crate::words::Words;
use go_ast::{Mark, Mem, Param, Seq, Shared, Signature, Span, TypeExpr};
use std::alloc::Global;

/// The pieces between commas outside brackets.
pub fn entries_of<'a>(alloc: Global, words: &Words<'a>) -> Mem<Vec<Words<'a>>>
    ensures { IfOk result (λ found. found.items ≡ pieces marks.Comma words.now) }
{
    let mut found = Vec::new(alloc);
    let mut rest = words.all();
    while !rest.is_empty() {
        let (piece, after) = rest.split_piece(Mark::Comma);
        found.push(piece)?;
        rest = after;
    }
    Ok(found)
}

/// Whether the words are a bracket and what it closes, and nothing else.
#[tactic(auto, unfolding(crate::specs::Reading::is_all_bracketed))]
fn is_all_bracketed(words: &Words<'_>) -> bool
    ensures { result ≡ backwards.are_all_bracketed words.now }
{
    match words.split_first() {
        None => false,
        Some((first, _)) => {
            first.mark.is(Mark::OpenBracket) && words.alone(Mark::CloseBracket).is_some()
        }
    }
}

/// Whether words after a name are those of a type, and neither a dot nor type arguments.
#[tactic(auto, unfolding(crate::specs::Reading::may_be_type))]
fn may_be_type(words: &Words<'_>) -> bool
    ensures { result ≡ backwards.may_all_be_type words.now }
{
    match words.split_first() {
        None => false,
        Some((first, _)) => !first.mark.is(Mark::Dot) && !is_all_bracketed(words),
    }
}

/// Whether an entry can only be a name and a type.
#[tactic(auto, unfolding(crate::specs::Reading::looks_named))]
pub fn looks_named(words: &Words<'_>) -> bool
    ensures { result ≡ spec.looks_named words.now }
{
    match words.split_first() {
        None => false,
        Some((name, rest)) => name.mark.is(Mark::Ident) && may_be_type(&rest),
    }
}

/// Whether some entry can only be a name and a type.
fn some_looks_named(entries: &[Words<'_>]) -> bool
    ensures { result ≡ list_any spec.looks_named entries.now }
{
    for entry in entries {
        if looks_named(entry) {
            return true;
        }
    }
    false
}

/// A parameter whose entry has this type.
fn param(alloc: Global, name: Option<Span>, typ: TypeExpr, variadic: bool) -> Mem<Param>
    ensures { IfOk result (λ p. p ≡ rule.param name typ variadic) }
{
    Ok(Param {
        name,
        typ: Shared::new(alloc, typ)?,
        variadic,
        shares: false,
    })
}

/// A parameter whose name stands alone in its entry, before the next one.
fn sharing_param(name: Span, next: &Param) -> Mem<Param>
    ensures { IfOk result (λ p. p ≡ rule.sharing_param name (out-Param next.now).typ) }
{
    Ok(Param {
        name: Some(name),
        typ: next.typ.share()?,
        variadic: false,
        shares: true,
    })
}

impl<F: Fn(Global, usize, &Words<'_>) -> Read<TypeExpr>> Reader<F> {
    /// A type, or three dots and a type where they are allowed.
    #[tactic(auto, unfolding(crate::specs::Reading::typed))]
    fn typed(&self, dots: bool, words: &Words<'_>) -> Read<(TypeExpr, bool)>
        requires { ReadsParts self.now.levels (F.pre self.now.part) (F.post self.now.part) }
        ensures { IfOk result (λ o. o ≡ spec.typed (spec.type_of self.now.levels) dots words.now) }
    {
        match words.split_first() {
            None => Ok(None),
            Some((first, rest)) if first.mark.is(Mark::Ellipsis) => {
                if !dots {
                    return Ok(None);
                }
                match self.part(&rest)? {
                    None => Ok(None),
                    Some(x) => Ok(Some((x, true))),
                }
            }
            _ => match self.part(words)? {
                None => Ok(None),
                Some(x) => Ok(Some((x, false))),
            },
        }
    }

    /// The last entry of parameters with names.
    #[tactic(auto, unfolding(crate::specs::Reading::named_last))]
    fn named_last(&self, dots: bool, entry: &Words<'_>) -> Read<Param>
        requires { ReadsParts self.now.levels (F.pre self.now.part) (F.post self.now.part) }
        ensures { IfOk result (λ o. option_map (λ p. p ∷ []) o
            ≡ spec.named_last (spec.type_of self.now.levels) dots entry.now) }
    {
        match entry.split_first() {
            Some((name, rest)) if name.mark.is(Mark::Ident) => match self.typed(dots, &rest)? {
                None => Ok(None),
                Some((typ, variadic)) => {
                    Ok(Some(param(self.alloc, Some(name.span), typ, variadic)?))
                }
            },
            _ => Ok(None),
        }
    }

    /// The last entry of parameters.
    fn last_entry(&self, named: bool, dots: bool, entry: &Words<'_>) -> Read<Param>
        requires { ReadsParts self.now.levels (F.pre self.now.part) (F.post self.now.part) }
        ensures { IfOk result (λ o. option_map (λ p. p ∷ []) o
            ≡ backwards.last_entry (spec.type_of self.now.levels) named dots entry.now) }
    {
        if named {
            return self.named_last(dots, entry);
        }
        match self.typed(dots, entry)? {
            None => Ok(None),
            Some((typ, variadic)) => Ok(Some(param(self.alloc, None, typ, variadic)?)),
        }
    }

    /// An entry of parameters with names, before the next.
    #[tactic(auto, unfolding(crate::specs::Reading::named_entry))]
    fn named_entry(&self, entry: &Words<'_>, next: &Param) -> Read<Param>
        requires { ReadsParts self.now.levels (F.pre self.now.part) (F.post self.now.part) }
        ensures { IfOk result (λ o. (ps : List Param) → option_map (λ p. p ∷ next.now ∷ ps) o
            ≡ spec.named_entry (spec.type_of self.now.levels) true entry.now
            (Some (next.now ∷ ps))) }
    {
        let Some((name, rest)) = entry.split_first() else {
            return Ok(None);
        };
        if !name.mark.is(Mark::Ident) {
            return Ok(None);
        }
        if rest.is_empty() {
            if next.variadic {
                return Ok(None);
            }
            return Ok(Some(sharing_param(name.span, next)?));
        }
        match self.part(&rest)? {
            None => Ok(None),
            Some(typ) => Ok(Some(param(self.alloc, Some(name.span), typ, false)?)),
        }
    }

    /// An entry of parameters, before the next.
    fn entry(&self, named: bool, entry: &Words<'_>, next: &Param) -> Read<Param>
        requires { ReadsParts self.now.levels (F.pre self.now.part) (F.post self.now.part) }
        ensures { IfOk result (λ o. (ps : List Param) → option_map (λ p. p ∷ next.now ∷ ps) o
            ≡ backwards.entry_before (spec.type_of self.now.levels) named entry.now
            (next.now ∷ ps)) }
    {
        if named {
            return self.named_entry(entry, next);
        }
        match self.part(entry)? {
            None => Ok(None),
            Some(typ) => Ok(Some(param(self.alloc, None, typ, false)?)),
        }
    }

    /// Adds an entry before those that were read, of which the first stands last.
    fn add_entry(&self, named: bool, entry: &Words<'_>, mut found: Vec<Param>) -> Read<Vec<Param>>
        requires parts { ReadsParts self.now.levels (F.pre self.now.part) (F.post self.now.part) }
        requires some { 0 < length found.items }
        ensures value { IfOk result (λ o. option_map (λ v. reverse v.items) o
            ≡ backwards.entry_before (spec.type_of self.now.levels) named entry.now
            (reverse found.items)) }
        ensures more { IfOk result (λ o. IfSome o (λ v. 0 < length v.items)) }
    {
        let next = &found[found.len() - 1];
        match self.entry(named, entry, next)? {
            None => Ok(None),
            Some(param) => {
                found.push(param)?;
                Ok(Some(found))
            }
        }
    }

    /// The parameters of some entries, from the last to the first.
    fn entries(&self, named: bool, dots: bool, entries: &[Words<'_>]) -> Read<Seq<Param>>
        requires { ReadsParts self.now.levels (F.pre self.now.part) (F.post self.now.part) }
        ensures { IfOk result
            (λ o. o ≡ backwards.from_last (spec.type_of self.now.levels) named dots entries.now) }
    {
        let mut found = Vec::new(self.alloc);
        if entries.is_empty() {
            return Ok(Some(Seq::from_vec(found)));
        }
        let mut at = entries.len() - 1;
        match self.last_entry(named, dots, &entries[at])? {
            None => return Ok(None),
            Some(last) => found.push(last)?,
        }
        while 0 < at {
            at -= 1;
            match self.add_entry(named, &entries[at], found)? {
                None => return Ok(None),
                Some(more) => found = more,
            }
        }
        found.reverse();
        Ok(Some(Seq::from_vec(found)))
    }

    /// What stands between the parentheses of parameters, where three dots may be allowed in the
    /// last.
    fn params(&self, dots: bool, words: &Words<'_>) -> Read<Seq<Param>>
        requires { ReadsParts self.now.levels (F.pre self.now.part) (F.post self.now.part) }
        ensures { IfOk result (λ o. o ≡ spec.params (spec.type_of self.now.levels) dots words.now) }
    {
        let entries = entries_of(self.alloc, words)?;
        let named = some_looks_named(&entries);
        self.entries(named, dots, &entries)
    }

    /// One result without parentheses.
    fn one_result(&self, words: &Words<'_>) -> Read<Seq<Param>>
        requires { ReadsParts self.now.levels (F.pre self.now.part) (F.post self.now.part) }
        ensures { IfOk result
            (λ o. o ≡ backwards.one_result (spec.type_of self.now.levels) words.now) }
    {
        match self.part(words)? {
            None => Ok(None),
            Some(typ) => {
                let mut found = Seq::new(self.alloc);
                found.push(param(self.alloc, None, typ, false)?)?;
                Ok(Some(found))
            }
        }
    }

    /// The results after the parameters.
    fn results(&self, words: &Words<'_>) -> Read<Seq<Param>>
        requires { ReadsParts self.now.levels (F.pre self.now.part) (F.post self.now.part) }
        ensures { IfOk result (λ o. o ≡ spec.results (spec.type_of self.now.levels) words.now) }
    {
        match words.split_first() {
            None => Ok(Some(Seq::new(self.alloc))),
            Some((first, _)) if first.mark.is(Mark::OpenParen) => {
                match words.alone(Mark::CloseParen) {
                    None => Ok(None),
                    Some(inner) => self.params(false, &inner),
                }
            }
            _ => self.one_result(words),
        }
    }

    /// Parameters, and the results in these words.
    fn signature_of(&self, inner: &Words<'_>, rest: &Words<'_>) -> Read<Signature>
        requires { ReadsParts self.now.levels (F.pre self.now.part) (F.post self.now.part) }
        ensures { IfOk result
            (λ o. o ≡ spec.signature_of (spec.type_of self.now.levels) (inner.now, rest.now)) }
    {
        let Some(params) = self.params(true, inner)? else {
            return Ok(None);
        };
        match self.results(rest)? {
            None => Ok(None),
            Some(results) => Ok(Some(Signature { params, results })),
        }
    }

    /// Parameters and results.
    #[tactic(auto, unfolding(crate::specs::Reading::read_signature))]
    pub fn signature(&self, words: &Words<'_>) -> Read<Signature>
        requires { ReadsParts self.now.levels (F.pre self.now.part) (F.post self.now.part) }
        ensures { IfOk result
            (λ o. o ≡ spec.read_signature (spec.type_of self.now.levels) words.now) }
    {
        let Some((first, _)) = words.split_first() else {
            return Ok(None);
        };
        if !first.mark.is(Mark::OpenParen) {
            return Ok(None);
        }
        match words.enclosed(Mark::CloseParen) {
            None => Ok(None),
            Some((inner, rest)) => self.signature_of(&inner, &rest),
        }
    }
}
