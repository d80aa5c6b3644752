//! Types as they are written in a source (Go specification, "Types").
//!
//! Names, tags and length runs are places in the source and in its list of tokens. Parentheses
//! round a type leave no node.

use crate::shared::Shared;
use crate::token::{Span, TokenRange};
use plain_data::Seq;
use sqlite_items::Boxed;

/// The most levels that a type may have: each form is one level more than its deepest part, and
/// parentheses are one.
pub const MAX_TYPE_LEVELS: usize = 200;

/// Which way values go through a channel (Go specification, "Channel types").
#[derive(Clone, Copy, Debug, PartialEq, Eq)]
pub enum ChanDir {
    /// `chan T`: both ways.
    Both,
    /// `chan<- T`: sent only.
    Send,
    /// `<-chan T`: received only.
    Receive,
}

/// A type (Go specification, "Types").
#[cycle(types)]
#[derive(Debug, Drop)]
pub enum TypeExpr {
    /// A name, as `T`, `p.T` or `p.T[A, B]`.
    Name {
        /// The name before the dot, where there is one.
        qualifier: Option<Span>,
        /// The name, or the one after the dot.
        name: Span,
        /// The type arguments, in their order; none where no brackets follow.
        args: Seq<TypeExpr>,
    },
    /// `*T`.
    Pointer(Boxed<TypeExpr>),
    /// `[]T`.
    Slice(Boxed<TypeExpr>),
    /// `[N]T`.
    Array {
        /// The tokens between the brackets, of which there is at least one.
        length: TokenRange,
        /// The type of the elements.
        elem: Boxed<TypeExpr>,
    },
    /// `map[K]V`.
    Map {
        /// The type of the keys.
        key: Boxed<TypeExpr>,
        /// The type of the values.
        value: Boxed<TypeExpr>,
    },
    /// `chan T`, `chan<- T` or `<-chan T`.
    Chan {
        /// Which way values go.
        dir: ChanDir,
        /// The type of the values.
        elem: Boxed<TypeExpr>,
    },
    /// `func` and a signature.
    Func(Signature),
    /// `struct` and its fields, in their order.
    Struct(Seq<Field>),
    /// `interface` and its elements, in their order.
    Interface(Seq<Element>),
}

/// A parameter or a result (Go specification, "Function types"). Names that share a type are one
/// parameter each, and own its tree together.
#[cycle(types)]
#[derive(Debug, Drop)]
pub struct Param {
    /// The name, where parameters have names.
    pub name: Option<Span>,
    /// The type, without the three dots.
    pub typ: Shared<TypeExpr>,
    /// Whether three dots stand before the type.
    pub variadic: bool,
    /// Whether the name stands alone in its entry, so that the type is the next parameter's.
    pub shares: bool,
}

/// The parameters and the results of a function, each in their order.
#[cycle(types)]
#[derive(Debug, Drop)]
pub struct Signature {
    /// The parameters.
    pub params: Seq<Param>,
    /// The results. One without parentheses is a result without a name.
    pub results: Seq<Param>,
}

/// A declaration of fields in a struct type (Go specification, "Struct types").
#[cycle(types)]
#[derive(Debug, Drop)]
pub struct Field {
    /// The tokens of the declaration, with its tag.
    pub tokens: TokenRange,
    /// The names of the fields, or none for an embedded field.
    pub names: Seq<Span>,
    /// The type of the fields.
    pub typ: TypeExpr,
    /// The string literal of the tag, where there is one.
    pub tag: Option<Span>,
}

/// An element of an interface type (Go specification, "Interface types").
#[cycle(types)]
#[derive(Debug, Drop)]
pub enum Element {
    /// A method.
    Method {
        /// The tokens of the element.
        tokens: TokenRange,
        /// The name of the method.
        name: Span,
        /// Its parameters and results.
        sig: Signature,
    },
    /// A type, or a union of terms.
    Terms {
        /// The tokens of the element.
        tokens: TokenRange,
        /// The terms between `|`, of which there is at least one.
        terms: Seq<Term>,
    },
}

/// A term of a union, `T` or `~T` (Go specification, "Interface types").
#[cycle(types)]
#[derive(Debug, Drop)]
pub struct Term {
    /// Whether `~` stands before the type.
    pub tilde: bool,
    /// The type.
    pub typ: TypeExpr,
}
