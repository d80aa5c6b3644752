//! Which names lead to paths that belong.

ghost use Rattle.std.specs.Prelude.{◌≢◌, ℕ, ◌+◌, ◌≤◌, ◌↔◌, List, ◌∷◌, ◌++◌, All, codes, length};
ghost use Rattle.tree_io.specs.Path.{Belongs, MayLead, path_limit, slash};

/// A folder's name may lead to paths that belong exactly where some path below a folder with that
/// name does: of names without a slash that leave room for a file's. The call does nothing.
pub fn names_that_lead()
    ensures { (name : List ℕ) → All (λ b. b ≢ slash) name
        → length name + length (codes "/a.go") ≤ path_limit
        → (MayLead name ↔ ((rest : List ℕ) × Belongs (name ++ slash ∷ rest))) }
{}
