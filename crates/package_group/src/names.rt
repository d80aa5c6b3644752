//! The name of a package, and the files that have it.

ghost use Rattle.std.specs.Prelude.{◌≡◌, ◌++◌, codes, map};
ghost use Rattle.std.specs.Str.{bytes_eq};
ghost use Rattle.package_group.specs.Groups.{has_name, name_of, without_test};

use crate::facts::FileFact;

/// What an external test package adds to the name of the package that it tests.
const TEST_SUFFIX: &str = "_test";

/// A name without a final `_test`, where something stands before that.
fn without_test(name: &str) -> &str
    ensures { result.now ≡ without_test name.now }
{
    match name.strip_suffix(TEST_SUFFIX) {
        Some(rest) if !rest.is_empty() => rest,
        _ => name,
    }
}

/// The name of the package that these files of one folder make up.
pub(crate) fn name_of<'a>(members: &'a [(u32, &'a FileFact)]) -> &'a str
    ensures { result.now ≡ name_of (map (λ member. member.1.now) members.now) }
{
    for (_, file) in members {
        if !file.test {
            return file.name.as_str();
        }
    }
    match members.first() {
        Some((_, file)) => without_test(file.name.as_str()),
        None => "",
    }
}

/// Whether a file belongs to the package with this name in its folder.
pub(crate) fn has_name(name: &str, file: &FileFact) -> bool
    ensures { result ≡ has_name name.now file.now }
{
    let own = file.name.as_str();
    own == name || file.test && is_test_name(name, own)
}

/// Whether a name is another one with `_test` added.
fn is_test_name(name: &str, own: &str) -> bool
    ensures { result ≡ bytes_eq own.now (name.now ++ codes "_test") }
{
    match own.strip_suffix(TEST_SUFFIX) {
        Some(rest) => rest == name,
        None => false,
    }
}
