//! What holds of all groupings.

ghost use Rattle.std.specs.Prelude.{◌≡◌, List, ℕ};
ghost use Rattle.package_group.specs.declared.facts.FileFact.{FileFact};
ghost use Rattle.package_group.specs.declared.facts.Grouped.{Grouped};
ghost use Rattle.package_group.specs.Groups.{IsGrouping};

/// The same files under one prefix make up one list of packages. The call does nothing.
pub fn one_grouping()
    ensures { (prefix : List ℕ) (files : List FileFact) (grouped other : Grouped)
        → IsGrouping prefix files grouped → IsGrouping prefix files other → grouped ≡ other }
{}
