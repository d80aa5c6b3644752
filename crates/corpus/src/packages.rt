//! The packages of accepted files, with the numbers of the files.

ghost use Rattle.std.specs.Prelude.{◌≡◌, ◌<◌, All, IfOk, length, map, slice_index};
ghost use Rattle.corpus.specs.Corpora.{renumbered};
ghost use Rattle.corpus.specs.Steps.{ArePlacesOf, HasPlacesOf, number_of};

use crate::accepted::Accepted;
use go_ast::{Mem, Seq};
use package_group::Package;
use std::alloc::Global;

/// Puts the numbers of accepted files in place of their places.
fn renumber(files: &[Accepted], places: &mut [u32])
    requires { ArePlacesOf files.now places.old }
    ensures { places.new ≡ map (slice_index (map number_of files.now)) places.old }
{
    for place in places.iter_mut() {
        *place = files[*place as usize].number;
    }
}

/// The numbers of accepted files, by their places.
pub(crate) fn numbers_of(files: &[Accepted], places: Seq<u32>) -> Seq<u32>
    requires { ArePlacesOf files.now places }
    ensures { result ≡ map (slice_index (map number_of files.now)) places }
{
    let mut numbers = places.into_vec();
    renumber(files, &mut numbers);
    numbers.shrink_to_fit();
    Seq::from_vec(numbers)
}

/// A package whose files have their numbers.
fn renumbered(files: &[Accepted], grouped: Package) -> Package
    requires { HasPlacesOf files.now grouped }
    ensures { result ≡ renumbered (map number_of files.now) grouped }
{
    let Package {
        path,
        dir,
        name,
        files: places,
        tests,
    } = grouped;
    Package {
        path,
        dir,
        name,
        files: numbers_of(files, places),
        tests: numbers_of(files, tests),
    }
}

/// Packages whose files have their numbers.
pub(crate) fn packages_of(
    alloc: Global,
    files: &[Accepted],
    grouped: Seq<Package>,
) -> Mem<Seq<Package>>
    requires { All (HasPlacesOf files.now) grouped }
    ensures { IfOk result (λ packages. packages
        ≡ map (renumbered (map number_of files.now)) grouped) }
{
    let mut packages = Vec::new(alloc);
    for package in grouped.into_vec() {
        packages.push(renumbered(files, package))?;
    }
    packages.shrink_to_fit();
    Ok(Seq::from_vec(packages))
}
