//! The packages among which names are looked up.

ghost use Rattle.std.specs.Prelude.{◌≡◌, ◌<◌, ◌^◌, All, IfOk, length, map};
ghost use Rattle.name_scope.specs.Scopes.{first_place, imports_of, local_name, types_of};

use crate::index::Index;
use crate::packages::NamedPackage;
use crate::places::{index_in, number_of, place_in};
use crate::tables::{PackageTables, index_paths, make_tables, tables_in};
use plain_data::{Mem, Seq};
use std::alloc::Global;
use std::marker::Model;

/// Packages among which names are looked up, seen by contracts as their list. Names are found in
/// maps, which are made once.
#[derive(Drop)]
pub struct World {
    packages: Vec<NamedPackage>,
    paths: Index,
    tables: Vec<PackageTables>,
}

impl Model for World {
    ghost use Rattle.std.specs.Prelude.{List};
    ghost use Rattle.name_scope.specs.declared.packages.NamedPackage.{NamedPackage};
    ghost use Rattle.name_scope.specs.Tables.{IsWorld};

    ghost Value = { List NamedPackage };

    ghost view = { λ world. world.packages.items };

    ghost invariant = { λ world. IsWorld world.packages.items world.paths world.tables.items };
}

impl World {
    /// A world of packages. Where two have one path, the first is found by it.
    ///
    /// # Errors
    ///
    /// `NoMemory` where an allocation is refused.
    pub fn make(alloc: Global, packages: Seq<NamedPackage>) -> Mem<World>
        requires few { length packages < 2 ^ 32 }
        requires few_types { All (λ p. length p.types < 2 ^ 32) packages }
        ensures { IfOk result (λ world. world ≡ packages) }
    {
        let packages = packages.into_vec();
        let paths = index_paths(alloc, packages.as_slice())?;
        let tables = make_tables(alloc, packages.as_slice(), &paths)?;
        Ok(World {
            packages,
            paths,
            tables,
        })
    }

    /// The packages, in their order. It takes no memory.
    pub fn packages(&self) -> &[NamedPackage]
        ensures { result.now ≡ self.now }
    {
        self.packages.as_slice()
    }

    /// The place of the first package with a path.
    pub(crate) fn package_place(&self, path: &str) -> Option<u32>
        ensures { result ≡ first_place path.now (map (λ p. p.path) self.now) }
    {
        number_of(place_in(&self.paths, path))
    }

    /// The place of the first type of a package with a name.
    pub(crate) fn type_place(&self, package: u32, name: &str) -> Option<u32>
        ensures { result ≡ first_place name.now (types_of self.now «package») }
    {
        match tables_in(&self.tables, package) {
            Some(tables) => number_of(place_in(&tables.types, name)),
            None => None,
        }
    }

    /// The place of the first import of a file with a local name.
    pub(crate) fn import_place(&self, package: u32, file: u32, name: &str) -> Option<usize>
        ensures { result ≡ first_place name.now
            (map (local_name self.now) (imports_of self.now «package» file)) }
    {
        match tables_in(&self.tables, package) {
            Some(tables) => match index_in(&tables.files, file) {
                Some(imports) => place_in(imports, name),
                None => None,
            },
            None => None,
        }
    }
}
