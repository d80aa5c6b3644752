//! The table of predeclared types.

ghost use Rattle.std.specs.Prelude.{◌≡◌, ◌<◌, length, map};
ghost use Rattle.name_scope.specs.Scopes.{first_place, predeclared};

/// The names of the predeclared types, each at its number.
const PREDECLARED: [&str; 22] = [
    "any",
    "bool",
    "byte",
    "comparable",
    "complex64",
    "complex128",
    "error",
    "float32",
    "float64",
    "int",
    "int8",
    "int16",
    "int32",
    "int64",
    "rune",
    "string",
    "uint",
    "uint8",
    "uint16",
    "uint32",
    "uint64",
    "uintptr",
];

/// The number of a predeclared type.
pub(crate) fn number_of(name: &str) -> Option<u8>
    ensures { result ≡ first_place name.now predeclared }
{
    place_among(&PREDECLARED, name)
}

/// The first place of a name.
fn place_among(names: &[&str], name: &str) -> Option<u8>
    requires { length names.now < 256 }
    ensures { result ≡ first_place name.now (map (λ known. known.now) names.now) }
{
    let mut place = 0;
    for known in names {
        if *known == name {
            return Some(place);
        }
        place += 1;
    }
    None
}
