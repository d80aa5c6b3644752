//! Looking names up.

ghost use Rattle.std.specs.Prelude.{◌≡◌, IfOk};
ghost use Rattle.std.specs.List.{find};
ghost use Rattle.std.specs.Option.{option_copied};
ghost use Rattle.std.specs.Str.{bytes_eq};
ghost use Rattle.name_scope.specs.Scopes.{imports_of, in_path, local_name, path_of, target_of};
ghost use Rattle.name_scope.specs.Scopes.{unqualified};
ghost use Rattle.name_scope.specs.declared.packages.Target.TheVariants.{Outside};

use crate::packages::{Import, Target};
use crate::places::{import_in, package_in};
use crate::predeclared::number_of;
use crate::world::World;
use plain_data::{Mem, Txt};
use std::alloc::Global;

/// What the name of a type leads to in a file, which is named by its place in its package. An empty
/// qualifier isn't one. A name alone is that of a type of the package, else of a predeclared type,
/// else it is outside, with the path of the package. A qualified name is one in the package of the
/// first import with the qualifier as its local name; where the package has no such type, or is not
/// in the world, it is outside with the import's path; where there is no such import, with the path
/// `?` and the qualifier.
///
/// # Errors
///
/// `NoMemory` where an allocation is refused.
pub fn resolve_name(
    alloc: Global,
    world: &World,
    package: u32,
    file: u32,
    qualifier: &str,
    name: &str,
) -> Mem<Target>
    ensures { IfOk result
        (λ target. target ≡ target_of world.now «package» file qualifier.now name.now) }
{
    if qualifier.is_empty() {
        return unqualified(alloc, world, package, name);
    }
    match import_at(world, package, file, qualifier) {
        Some(import) => in_path(alloc, world, import.path.as_str(), name),
        None => {
            let mut path = String::from_str(alloc, "?")?;
            path.push_str(qualifier)?;
            outside(alloc, path.as_str(), name)
        }
    }
}

/// What a name leads to that stands alone.
fn unqualified(alloc: Global, world: &World, package: u32, name: &str) -> Mem<Target>
    ensures { IfOk result (λ target. target ≡ unqualified world.now «package» name.now) }
{
    if let Some(index) = world.type_place(package, name) {
        return Ok(Target::Declared { package, index });
    }
    match number_of(name) {
        Some(number) => Ok(Target::Predeclared(number)),
        None => outside(alloc, path_of(world, package), name),
    }
}

/// The path of a package by its place.
fn path_of(world: &World, package: u32) -> &str
    ensures { result.now ≡ path_of world.now «package» }
{
    match package_in(world.packages(), package as usize) {
        Some(package) => package.path.as_str(),
        None => "",
    }
}

/// The first import of a file with a local name.
fn import_at<'a>(world: &'a World, package: u32, file: u32, name: &str) -> Option<&'a Import>
    ensures { option_copied result ≡ find
        (λ import. bytes_eq name.now (local_name world.now import))
        (imports_of world.now «package» file) }
{
    match world.import_place(package, file, name) {
        Some(place) => import_in(world.packages(), package, file, place),
        None => None,
    }
}

/// What a name leads to in the package with a path.
fn in_path(alloc: Global, world: &World, path: &str, name: &str) -> Mem<Target>
    ensures { IfOk result (λ target. target ≡ in_path world.now path.now name.now) }
{
    if let Some(package) = world.package_place(path) {
        if let Some(index) = world.type_place(package, name) {
            return Ok(Target::Declared { package, index });
        }
    }
    outside(alloc, path, name)
}

/// A name that is outside.
fn outside(alloc: Global, path: &str, name: &str) -> Mem<Target>
    ensures { IfOk result (λ target. target ≡ Outside path.now name.now) }
{
    Ok(Target::Outside {
        path: Txt::from_str(alloc, path)?,
        name: Txt::from_str(alloc, name)?,
    })
}
