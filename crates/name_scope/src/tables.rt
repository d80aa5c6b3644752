//! The tables in which the names of a package are looked up.

ghost use Rattle.std.specs.Prelude.{◌≡◌, IfOk, map, string_bytes};
ghost use Rattle.std.specs.List.{AllZip, slice_get};
ghost use Rattle.std.specs.Option.{option_copied};
ghost use Rattle.name_scope.specs.Tables.{AreTables, IndexesImports, IsIndex};

use crate::index::{Index, copies_of, index_of};
use crate::locals::local_names;
use crate::packages::{Imports, NamedPackage};
use plain_data::Mem;
use std::alloc::Global;

/// The tables of one package: its types by their names, and for each of its files the imports by
/// their local names.
#[derive(Drop)]
pub(crate) struct PackageTables {
    pub(crate) types: Index,
    pub(crate) files: Vec<Index>,
}

fn paths_of(alloc: Global, packages: &[NamedPackage]) -> Mem<Vec<String>>
    ensures { IfOk result (λ paths. map string_bytes paths.items ≡ map (λ p. p.path) packages.now) }
{
    let mut paths = Vec::new(alloc);
    for package in packages {
        paths.push(String::from_str(alloc, package.path.as_str())?)?;
    }
    Ok(paths)
}

/// The places of packages by their paths.
pub(crate) fn index_paths(alloc: Global, packages: &[NamedPackage]) -> Mem<Index>
    ensures { IfOk result (λ paths. IsIndex paths (map (λ p. p.path) packages.now)) }
{
    index_of(alloc, paths_of(alloc, packages)?)
}

pub(crate) fn make_tables(
    alloc: Global,
    packages: &[NamedPackage],
    paths: &Index,
) -> Mem<Vec<PackageTables>>
    requires { IsIndex paths.now (map (λ p. p.path) packages.now) }
    ensures { IfOk result (λ tables. AllZip (AreTables packages.now) packages.now tables.items) }
{
    let mut tables = Vec::new(alloc);
    for package in packages {
        tables.push(PackageTables {
            types: index_of(alloc, copies_of(alloc, package.types.as_slice())?)?,
            files: index_files(alloc, packages, paths, package.files.as_slice())?,
        })?;
    }
    Ok(tables)
}

/// The imports of each file, by their local names.
fn index_files(
    alloc: Global,
    packages: &[NamedPackage],
    paths: &Index,
    files: &[Imports],
) -> Mem<Vec<Index>>
    requires { IsIndex paths.now (map (λ p. p.path) packages.now) }
    ensures { IfOk result (λ places. AllZip (IndexesImports packages.now) files.now places.items) }
{
    let mut places = Vec::new(alloc);
    for file in files {
        let names = local_names(alloc, packages, paths, file.list.as_slice())?;
        places.push(index_of(alloc, names)?)?;
    }
    Ok(places)
}

pub(crate) fn tables_in(tables: &[PackageTables], place: u32) -> Option<&PackageTables>
    ensures { option_copied result ≡ slice_get tables.now place }
{
    tables.get(place as usize)
}
