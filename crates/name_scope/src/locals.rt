//! The local names of imports.

ghost use Rattle.std.specs.Prelude.{◌≡◌, IfOk, map, string_bytes};
ghost use Rattle.std.specs.Option.{option_copied};
ghost use Rattle.name_scope.specs.Scopes.{local_name, package_at};
ghost use Rattle.name_scope.specs.Tables.{IsIndex};

use crate::index::Index;
use crate::packages::{Import, NamedPackage};
use crate::places::package_in;
use crate::versions::{name_segment, without_version};
use plain_data::Mem;
use std::alloc::Global;

/// What stands in the place of the local name of a dot import.
const DOT: &str = ".";

/// The local name of an import; that of a dot import is empty.
pub(crate) fn local_name<'a>(
    packages: &'a [NamedPackage],
    paths: &Index,
    import: &'a Import,
) -> &'a str
    requires { IsIndex paths.now (map (λ p. p.path) packages.now) }
    ensures { result.now ≡ local_name packages.now import.now }
{
    let local = import.local.as_str();
    if local == DOT {
        return "";
    }
    if !local.is_empty() {
        return local;
    }
    let path = import.path.as_str();
    match package_at(packages, paths, path) {
        Some(package) => package.name.as_str(),
        None => without_version(name_segment(path)),
    }
}

/// The first package with a path.
fn package_at<'a>(
    packages: &'a [NamedPackage],
    paths: &Index,
    path: &str,
) -> Option<&'a NamedPackage>
    requires { IsIndex paths.now (map (λ p. p.path) packages.now) }
    ensures { option_copied result ≡ package_at packages.now path.now }
{
    match paths.get(path) {
        Some(place) => package_in(packages, *place),
        None => None,
    }
}

pub(crate) fn local_names(
    alloc: Global,
    packages: &[NamedPackage],
    paths: &Index,
    imports: &[Import],
) -> Mem<Vec<String>>
    requires { IsIndex paths.now (map (λ p. p.path) packages.now) }
    ensures { IfOk result (λ names.
        map string_bytes names.items ≡ map (local_name packages.now) imports.now) }
{
    let mut names = Vec::new(alloc);
    for import in imports {
        names.push(String::from_str(alloc, local_name(packages, paths, import))?)?;
    }
    Ok(names)
}
