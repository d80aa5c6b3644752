//! The value of a build line's expression.

ghost use Rattle.std.specs.Prelude.{◌≡◌, IfOk};
ghost use Rattle.build_lines.specs.Judging.{IsValue};
ghost use Rattle.build_lines.specs.Tags.{holds};

use crate::cutting::symbols_of;
use crate::evaluation::value_of;
use go_ast::{Config, Mem};
use std::alloc::Global;

/// The value of the expression that a text spells, for a configuration, or `None` where it spells
/// none (the go command, "Build constraints").
pub fn expression_value(alloc: Global, text: &[u8], config: &Config) -> Mem<Option<bool>>
    ensures { IfOk result (IsValue (holds config.now) text.now) }
{
    let text = match str::from_utf8(text) {
        Ok(text) => text,
        Err(_) => return Ok(None),
    };
    match symbols_of(alloc, text, config)? {
        None => Ok(None),
        Some(symbols) => value_of(alloc, symbols.as_slice()),
    }
}
