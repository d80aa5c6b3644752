//! For what a tree of sources is read.

ghost use Rattle.std.specs.Prelude.{◌≡◌, IfOk};

use plain_data::{Mem, Seq, Txt};
use std::alloc::Global;

/// The platform, the build tags and the version of the language that build lines are judged by, and
/// the path under which packages are imported.
#[derive(Debug, Drop)]
pub struct Config {
    /// The operating system, as `linux`.
    pub goos: Txt,
    /// The architecture, as `amd64`.
    pub goarch: Txt,
    /// Further build tags that hold.
    pub tags: Seq<Txt>,
    /// The minor version of the language: 23 for Go 1.23.
    pub go_minor: u32,
    /// What stands before a folder in the path of its package; it may be empty.
    pub prefix: Txt,
}

/// A copy of a configuration, which equals it.
pub fn copy_config(alloc: Global, config: &Config) -> Mem<Config>
    ensures { IfOk result (λ copy. copy ≡ config.now) }
{
    Ok(Config {
        goos: Txt::from_str(alloc, config.goos.as_str())?,
        goarch: Txt::from_str(alloc, config.goarch.as_str())?,
        tags: copy_texts(alloc, config.tags.as_slice())?,
        go_minor: config.go_minor,
        prefix: Txt::from_str(alloc, config.prefix.as_str())?,
    })
}

/// Copies of texts, in their order.
fn copy_texts(alloc: Global, texts: &[Txt]) -> Mem<Seq<Txt>>
    ensures { IfOk result (λ copies. copies ≡ texts.now) }
{
    let mut copies = Seq::new(alloc);
    for text in texts {
        copies.push(Txt::from_str(alloc, text.as_str())?)?;
    }
    Ok(copies)
}
