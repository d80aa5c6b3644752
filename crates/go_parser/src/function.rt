//! Functions and methods (Go specification, "Function declarations", "Method declarations").

ghost use Rattle.std.specs.Prelude.{◌≡◌, IfOk, drop};
ghost use Rattle.go_parser.specs.Reading as spec;

use crate::read::Read;
use crate::receiver::only_receiver;
use go_ast::{FuncDecl, Mark, Receiver, Seq, Span, TokenRange, TypeParam};
use std::alloc::Global;
use type_parser::{Words, entries_in, signature_in};

/// Where a function is declared.
#[derive(Clone, Copy)]
pub struct Extent {
    /// The tokens of the declaration, with its body.
    pub tokens: TokenRange,
    /// The tokens of the body, where there is one.
    pub body: Option<TokenRange>,
}

impl Extent {
    /// The function with this name and these parameters, whose signature is the words.
    fn function(
        self,
        alloc: Global,
        name: Span,
        receiver: Option<Receiver>,
        params: Seq<TypeParam>,
        words: &Words<'_>,
    ) -> Read<FuncDecl>
        ensures { IfOk result (λ o. o
            ≡ spec.read_signed self.tokens self.body name receiver params words.now) }
    {
        match signature_in(alloc, words)? {
            None => Ok(None),
            Some(sig) => Ok(Some(FuncDecl {
                tokens: self.tokens,
                name,
                receiver,
                params,
                sig,
                body: self.body,
            })),
        }
    }

    /// A function with type parameters, which are the first words.
    fn generic(
        self,
        alloc: Global,
        name: Span,
        inner: &Words<'_>,
        rest: &Words<'_>,
    ) -> Read<FuncDecl>
        ensures { IfOk result (λ o. o
            ≡ spec.read_generic self.tokens self.body name (inner.now, rest.now)) }
    {
        match entries_in(alloc, inner)? {
            None => Ok(None),
            Some(params) => self.function(alloc, name, None, params, rest),
        }
    }

    /// The function with this name, which the words follow.
    #[tactic(auto, unfolding(crate::specs::Reading::read_named_function))]
    fn named(self, alloc: Global, name: Span, words: &Words<'_>) -> Read<FuncDecl>
        ensures { IfOk result (λ o. o
            ≡ spec.read_named_function self.tokens self.body name words.now) }
    {
        let Some((first, _)) = words.split_first() else {
            return Ok(None);
        };
        if !first.mark.is(Mark::OpenBracket) {
            return self.function(alloc, name, None, Seq::new(alloc), words);
        }
        match words.enclosed(Mark::CloseBracket) {
            None => Ok(None),
            Some((inner, rest)) => self.generic(alloc, name, &inner, &rest),
        }
    }

    /// A method, by the words between the parentheses of its receiver and those after them.
    fn method(self, alloc: Global, inner: &Words<'_>, rest: &Words<'_>) -> Read<FuncDecl>
        ensures { IfOk result (λ o. o
            ≡ spec.read_method self.tokens self.body (inner.now, rest.now)) }
    {
        let Some(receiver) = only_receiver(alloc, inner)? else {
            return Ok(None);
        };
        match rest.split_first() {
            Some((name, words)) if name.mark.is(Mark::Ident) => {
                self.function(alloc, name.span, Some(receiver), Seq::new(alloc), &words)
            }
            _ => Ok(None),
        }
    }

    /// A function or a method without its body, after `func`.
    #[tactic(auto, unfolding(crate::specs::Reading::read_function))]
    pub fn read(self, alloc: Global, words: &Words<'_>) -> Read<FuncDecl>
        ensures { IfOk result (λ o. o ≡ spec.read_function self.tokens self.body words.now) }
    {
        let Some((first, rest)) = words.split_first() else {
            return Ok(None);
        };
        if first.mark.is(Mark::OpenParen) {
            return match words.enclosed(Mark::CloseParen) {
                None => Ok(None),
                Some((inner, rest)) => self.method(alloc, &inner, &rest),
            };
        }
        if first.mark.is(Mark::Ident) {
            self.named(alloc, first.span, &rest)
        } else {
            Ok(None)
        }
    }
}
