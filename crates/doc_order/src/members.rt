//! What is known of the declarations of a package, and the documentation that lists them.

use plain_data::{Seq, Txt};

/// A declaration of a package, outside functions, in a file that isn't a test.
#[derive(Drop)]
pub enum Member {
    /// A declaration of constants or variables.
    Value {
        /// Whether it declares constants.
        constant: bool,
        /// Its specifications, in their order.
        specs: Seq<SpecFact>,
    },
    /// A declaration of one type, or of an alias.
    TypeDef {
        /// The name of the type.
        name: Txt,
    },
    /// A function without a receiver.
    Func {
        /// The name of the function.
        name: Txt,
        /// The base name of each result, empty for one that has none. Results that share a type are
        /// one.
        results: Seq<Txt>,
    },
    /// A method.
    Method {
        /// The name of the method.
        name: Txt,
        /// The name of the receiver's type, empty where it has none.
        base: Txt,
    },
}

/// A specification of a declaration of constants or variables.
#[derive(Drop)]
pub struct SpecFact {
    /// The names that it declares, in their order.
    pub names: Seq<Txt>,
    /// The base name of the type that is written in it, empty where none is.
    pub base: Txt,
    /// Whether it has neither a type nor values, as a constant may repeat those before it.
    pub empty: bool,
}

/// The documentation of a package: numbers of members, which are their places from 0.
#[derive(Drop)]
pub struct DocPackage {
    /// The declarations of constants that stand under no type.
    pub consts: Seq<u32>,
    /// The declarations of variables that stand under no type.
    pub vars: Seq<u32>,
    /// The functions that stand under no type.
    pub funcs: Seq<u32>,
    /// The types, each with what stands under it.
    pub types: Seq<DocType>,
}

/// A type of the documentation, and what stands under it.
#[derive(Drop)]
pub struct DocType {
    /// The number of its declaration.
    pub member: u32,
    /// The declarations of constants.
    pub consts: Seq<u32>,
    /// The declarations of variables.
    pub vars: Seq<u32>,
    /// The functions that give it.
    pub factories: Seq<u32>,
    /// Its methods.
    pub methods: Seq<u32>,
}

/// The kinds of declarations, each of which has lists of its own.
#[derive(Clone, Copy)]
pub enum Kind {
    /// Declarations of constants.
    Constants,
    /// Declarations of variables.
    Variables,
    /// Functions without a receiver.
    Functions,
    /// Types and aliases.
    Types,
    /// Methods.
    Methods,
}
