//! Identifiers where they stand in the files of a tree.

/// What an identifier is, by the place where it stands.
#[derive(Clone, Copy, Debug, PartialEq, Eq, PartialOrd, Ord)]
pub enum HitKind {
    /// The name of a package clause.
    PackageName,
    /// The local name of an import.
    ImportName,
    /// A name that a const declaration of a file declares.
    ConstName,
    /// A name that a type declaration of a file declares.
    TypeName,
    /// A name that a var declaration of a file or a field of a struct type declares.
    VarName,
    /// The name of a function.
    FuncName,
    /// The name of a method, with a receiver or of an interface type.
    MethodName,
    /// Every other identifier, and each one in a body or an expression.
    Usage,
}

/// An identifier in a file.
#[derive(Clone, Copy, Debug, PartialEq, Eq)]
pub struct Hit {
    /// The number of the file.
    pub file: u32,
    /// The byte offset where the identifier begins.
    pub offset: u32,
    /// The line of that offset, counted from 1.
    pub line: u32,
    /// What the identifier is there.
    pub kind: HitKind,
}

/// A file with its identifiers, both borrowed.
#[derive(Clone, Copy, Debug)]
pub struct HitFile<'a> {
    /// The bytes of the file.
    pub source: &'a [u8],
    /// The identifiers, in source order.
    pub hits: &'a [Hit],
}
