//! Tags, and which of them a configuration has.

ghost use Rattle.std.specs.Prelude.{◌≡◌};
ghost use Rattle.std.specs.List.{list_any};
ghost use Rattle.std.specs.Str.{bytes_eq};
ghost use Rattle.go_chars.specs.Identifiers.{is_among};
ghost use Rattle.build_lines.specs.Tags.{architectures, holds, is_implied, is_number, is_release};
ghost use Rattle.build_lines.specs.Tags.{is_version, systems, unix_systems};

use go_ast::{Config, Seq, Txt};

/// The operating systems (Go's `internal/syslist`).
const SYSTEMS: [&str; 18] = [
    "aix",
    "android",
    "darwin",
    "dragonfly",
    "freebsd",
    "hurd",
    "illumos",
    "ios",
    "js",
    "linux",
    "nacl",
    "netbsd",
    "openbsd",
    "plan9",
    "solaris",
    "wasip1",
    "windows",
    "zos",
];

/// The architectures (Go's `internal/syslist`).
const ARCHITECTURES: [&str; 15] = [
    "386", "amd64", "arm", "arm64", "loong64", "mips", "mips64", "mips64le", "mipsle", "ppc64",
    "ppc64le", "riscv64", "s390x", "sparc64", "wasm",
];

/// The systems on which the tag `unix` holds.
const UNIX_SYSTEMS: [&str; 12] = [
    "aix",
    "android",
    "darwin",
    "dragonfly",
    "freebsd",
    "hurd",
    "illumos",
    "ios",
    "linux",
    "netbsd",
    "openbsd",
    "solaris",
];

fn is(tag: &[u8], word: &str) -> bool
    ensures { result ≡ bytes_eq tag.now word.now }
{
    tag == word.as_bytes()
}

fn is_word(words: &[&str], tag: &[u8]) -> bool
    ensures { result ≡ list_any (λ word. bytes_eq tag.now word.now) words.now }
{
    words.iter().any(|word| is(tag, word))
}

/// Whether a tag is a listed operating system.
#[tactic(auto, unfolding(crate::specs::Tags::systems))]
pub fn is_system(tag: &[u8]) -> bool
    ensures { result ≡ is_among systems tag.now }
{
    is_word(&SYSTEMS, tag)
}

/// Whether a tag is a listed architecture.
#[tactic(auto, unfolding(crate::specs::Tags::architectures))]
pub fn is_architecture(tag: &[u8]) -> bool
    ensures { result ≡ is_among architectures tag.now }
{
    is_word(&ARCHITECTURES, tag)
}

/// Whether a system is one on which `unix` holds.
#[tactic(auto, unfolding(crate::specs::Tags::unix_systems))]
fn is_unix(system: &[u8]) -> bool
    ensures { result ≡ is_among unix_systems system.now }
{
    is_word(&UNIX_SYSTEMS, system)
}

/// Whether bytes are decimal digits, of a value up to the last.
fn is_number(last: u32, digits: &[u8]) -> bool
    ensures { result ≡ is_number last digits.now }
{
    let most = u64::from(last);
    let mut value: u64 = 0;
    for digit in digits {
        if !digit.is_ascii_digit() {
            return false;
        }
        value = value * 10 + u64::from(*digit - b'0');
        if value > most {
            return false;
        }
    }
    true
}

/// Whether digits are a decimal number without a leading zero, up to the last.
fn is_version(last: u32, digits: &[u8]) -> bool
    ensures { result ≡ is_version last digits.now }
{
    match digits {
        [] | [b'0', ..] => false,
        _ => is_number(last, digits),
    }
}

/// Whether a tag is `go1.` and a minor version from 1 to this one.
#[tactic(auto, unfolding(crate::specs::Tags::is_release))]
fn is_release(minor: u32, tag: &[u8]) -> bool
    ensures { result ≡ is_release minor tag.now }
{
    tag.starts_with(b"go1.") && is_version(minor, &tag[4..])
}

/// Whether a tag holds on a system by another name than its own.
fn is_implied(system: &[u8], tag: &[u8]) -> bool
    ensures { result ≡ is_implied system.now tag.now }
{
    (is(tag, "unix") && is_unix(system))
        || (is(tag, "linux") && is(system, "android"))
        || (is(tag, "solaris") && is(system, "illumos"))
        || (is(tag, "darwin") && is(system, "ios"))
}

fn is_among(tags: &Seq<Txt>, tag: &[u8]) -> bool
    ensures { result ≡ is_among tags.now tag.now }
{
    tags.as_slice().iter().any(|known| is(tag, known.as_str()))
}

/// Whether a tag holds for a configuration: the system, the architecture, a configured tag, `gc`, a
/// release up to the minor version, or a tag that the system implies (the go command, "Build
/// constraints").
#[tactic(auto, unfolding(crate::specs::Tags::holds))]
pub fn holds(tag: &[u8], config: &Config) -> bool
    ensures { result ≡ holds config.now tag.now }
{
    let system = config.goos.as_str();
    is(tag, system)
        || is(tag, config.goarch.as_str())
        || is_among(&config.tags, tag)
        || is(tag, "gc")
        || is_release(config.go_minor, tag)
        || is_implied(system.as_bytes(), tag)
}
