//! Packages with the names that they declare and import, and what a name leads to.

use plain_data::{Seq, Txt};

/// An import of a file.
#[derive(Drop)]
pub struct Import {
    /// The name that is written for the package: empty where there isn't one, `.` for a dot import.
    pub local: Txt,
    /// The path of the package.
    pub path: Txt,
}

/// The imports of a file.
#[derive(Drop)]
pub struct Imports {
    /// The path of the file.
    pub path: Txt,
    /// The imports, in source order.
    pub list: Seq<Import>,
}

/// A package with the names of its types and the imports of its files.
#[derive(Drop)]
pub struct NamedPackage {
    /// The path by which it is imported.
    pub path: Txt,
    /// Its name.
    pub name: Txt,
    /// The names of its types, in source order.
    pub types: Seq<Txt>,
    /// The imports of its files.
    pub files: Seq<Imports>,
}

/// What the name of a type leads to.
#[derive(Drop)]
pub enum Target {
    /// A type of a package, by the places of the package and of the type in it.
    Declared { package: u32, index: u32 },
    /// A predeclared type, by its number in the table.
    Predeclared(u8),
    /// A type that is not declared in any package, by the path of a package and its name.
    Outside { path: Txt, name: Txt },
}
