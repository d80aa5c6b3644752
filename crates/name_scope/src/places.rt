//! Packages, imports and indexes by their places.

ghost use Rattle.std.specs.Prelude.{◌≡◌, ◌<◌, ◌^◌, IfSome};
ghost use Rattle.std.specs.BTreeMap.{get_by_text};
ghost use Rattle.std.specs.List.{slice_get};
ghost use Rattle.std.specs.Option.{option_copied};
ghost use Rattle.name_scope.specs.Scopes.{imports_of};

use crate::index::Index;
use crate::packages::{Import, NamedPackage};

pub(crate) fn package_in(packages: &[NamedPackage], place: usize) -> Option<&NamedPackage>
    ensures { option_copied result ≡ slice_get packages.now place }
{
    packages.get(place)
}

/// The import at a place among those of a file of a package.
pub(crate) fn import_in(
    packages: &[NamedPackage],
    package: u32,
    file: u32,
    place: usize,
) -> Option<&Import>
    ensures { option_copied result ≡ slice_get (imports_of packages.now «package» file) place }
{
    match package_in(packages, package as usize) {
        Some(package) => match package.files.get(file as usize) {
            Some(imports) => imports.list.get(place),
            None => None,
        },
        None => None,
    }
}

pub(crate) fn index_in(indexes: &[Index], place: u32) -> Option<&Index>
    ensures { option_copied result ≡ slice_get indexes.now place }
{
    indexes.get(place as usize)
}

/// The first place of a name.
pub(crate) fn place_in(index: &Index, name: &str) -> Option<usize>
    ensures { result ≡ get_by_text index.now name.now }
{
    index.get(name).copied()
}

/// A place among fewer than 2^32, as a number of 32 bits.
pub(crate) fn number_of(place: Option<usize>) -> Option<u32>
    requires { IfSome place (λ place. place < 2 ^ 32) }
    ensures { result ≡ place }
{
    match place {
        Some(place) => Some(place as u32),
        None => None,
    }
}
