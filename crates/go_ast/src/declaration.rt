//! The declarations of a file (Go specification, "Declarations and scope").

use crate::shared::Shared;
use crate::token::{Span, TokenRange};
use crate::tree::{Signature, Term, TypeExpr};
use plain_data::Seq;

/// A type parameter (Go specification, "Type parameter declarations"). Names that share a bound are
/// one type parameter each, and own its terms together.
#[derive(Debug, Drop)]
pub struct TypeParam {
    /// The name.
    pub name: Span,
    /// The terms of its constraint, of which there is at least one.
    pub bound: Shared<Seq<Term>>,
    /// Whether the name stands alone in its entry, so that the bound is the next parameter's.
    pub shares: bool,
}

/// A declaration of imports, constants, variables or types: one keyword and its specs.
#[derive(Debug, Drop)]
pub struct Group<S> {
    /// The tokens of the declaration.
    pub tokens: TokenRange,
    /// Whether the specs stand in parentheses.
    pub grouped: bool,
    /// The specs, in their order.
    pub specs: Seq<S>,
}

/// The name under which a file knows an imported package (Go specification, "Import declarations").
#[derive(Clone, Copy, Debug, PartialEq, Eq)]
pub enum ImportName {
    /// None is written.
    Plain,
    /// A dot: the package's exported names are the file's own.
    Dot,
    /// This identifier.
    Named(Span),
}

/// An imported package.
#[derive(Clone, Copy, Debug, PartialEq, Eq)]
pub struct ImportSpec {
    /// The tokens of the spec.
    pub tokens: TokenRange,
    /// The name that the file gives the package.
    pub local: ImportName,
    /// The string literal of the path.
    pub path: Span,
}

/// A spec of a const or var declaration (Go specification, "Constant declarations", "Variable
/// declarations").
#[derive(Debug, Drop)]
pub struct ValueSpec {
    /// The tokens of the spec.
    pub tokens: TokenRange,
    /// The names, of which there is at least one.
    pub names: Seq<Span>,
    /// The type, where one is written.
    pub typ: Option<TypeExpr>,
    /// The tokens after `=`, where it is written.
    pub value: Option<TokenRange>,
}

/// A spec of a type declaration (Go specification, "Type declarations").
#[derive(Debug, Drop)]
pub struct TypeSpec {
    /// The tokens of the spec.
    pub tokens: TokenRange,
    /// The name.
    pub name: Span,
    /// The type parameters, in their order.
    pub params: Seq<TypeParam>,
    /// Whether `=` makes it an alias.
    pub alias: bool,
    /// The type on the right.
    pub typ: TypeExpr,
}

/// The receiver of a method (Go specification, "Method declarations").
#[derive(Debug, Drop)]
pub struct Receiver {
    /// The name of the receiver, where there is one.
    pub name: Option<Span>,
    /// Whether `*` stands before the type.
    pub pointer: bool,
    /// The name of the type.
    pub base: Span,
    /// The names of the type's parameters, in their order.
    pub params: Seq<Span>,
}

/// The declaration of a function or a method (Go specification, "Function declarations").
#[derive(Debug, Drop)]
pub struct FuncDecl {
    /// The tokens of the declaration, with its body.
    pub tokens: TokenRange,
    /// The name.
    pub name: Span,
    /// The receiver, which a method has.
    pub receiver: Option<Receiver>,
    /// The type parameters, in their order.
    pub params: Seq<TypeParam>,
    /// The parameters and results.
    pub sig: Signature,
    /// The tokens of the body with both braces, where there is a body.
    pub body: Option<TokenRange>,
}

/// A declaration of a file.
#[derive(Debug, Drop)]
pub enum Decl {
    /// `import`.
    Import(Group<ImportSpec>),
    /// `const`.
    Const(Group<ValueSpec>),
    /// `var`.
    Var(Group<ValueSpec>),
    /// `type`.
    Types(Group<TypeSpec>),
    /// `func`.
    Func(FuncDecl),
}

/// A source file (Go specification, "Source file organization").
#[derive(Debug, Drop)]
pub struct File {
    /// The name of the package clause.
    pub package: Span,
    /// The declarations, in their order.
    pub decls: Seq<Decl>,
}
