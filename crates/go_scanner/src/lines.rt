//! Where the lines of a source begin.

ghost use Rattle.std.specs.Prelude.{◌≡◌, ◌≤◌, length, IfOk};
ghost use Rattle.go_ast.specs.declared.token.TheConstants.{MAX_SOURCE_BYTES};
ghost use Rattle.go_ast.specs.Position.{line_starts};

use go_ast::{Mem, Seq};
use memchr::memchr;
use std::alloc::Global;

/// The offsets where the lines of a source begin: 0, and the offset after each newline.
pub fn line_starts(alloc: Global, source: &[u8]) -> Mem<Seq<u32>>
    requires { length source.now ≤ MAX_SOURCE_BYTES }
    ensures { IfOk result (λ lines. lines ≡ line_starts source.now) }
{
    let mut lines = Vec::new(alloc);
    lines.push(0)?;
    let mut at = 0;
    while let Some(line) = memchr(b'\n', &source[at..]) {
        at += line + 1;
        lines.push(at as u32)?;
    }
    Ok(Seq::from_vec(lines))
}
