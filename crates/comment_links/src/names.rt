//! What doc links lead to.

ghost use Rattle.std.specs.Prelude.{◌≡◌, ℕ, List, Option, IfOk};

use go_ast::{Mem, Txt};
use std::alloc::Global;

/// The names that doc links may have: a function from bodies of links to addresses.
pub trait Names {
    // The address of a body, where it has one.
    ghost address_of: { Self → List ℕ → Option (List ℕ) };

    /// The address of a link's body, without the star that a body may begin with; `None` exactly
    /// where the body has no address.
    ///
    /// # Errors
    ///
    /// `NoMemory` where an allocation is refused.
    fn address(&self, alloc: Global, body: &str) -> Mem<Option<Txt>>
        ensures { IfOk result (λ address. address ≡ address_of self.now body.now) };
}
