//! The configuration that a tree is read for.

ghost use Rattle.std.specs.Prelude.{◌≡◌, IfOk};
ghost use Rattle.godoc_commands.specs.Defaults.{defaults};

use go_ast::{Config, Mem, Seq, Txt};
use std::alloc::Global;

/// The configuration of the defaults: Go 1.23 on linux and amd64, with no tags and no prefix.
pub(crate) fn default_config(alloc: Global) -> Mem<Config>
    ensures { IfOk result (λ config. config ≡ defaults) }
{
    Ok(Config {
        goos: Txt::from_str(alloc, "linux")?,
        goarch: Txt::from_str(alloc, "amd64")?,
        tags: Seq::new(alloc),
        go_minor: 23,
        prefix: Txt::from_str(alloc, "")?,
    })
}
