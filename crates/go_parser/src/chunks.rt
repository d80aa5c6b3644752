//! The chunks of a file, in one pass over its tokens.

ghost use Rattle.std.specs.Prelude.{◌≡◌, ◌^◌, ◌<◌, IfOk, length};
ghost use Rattle.go_ast.specs.Marks as spec;
ghost use Rattle.go_parser.specs.ChunkFacts.{IsCut};
ghost use Rattle.go_parser.specs.Cutter.{CutsAs};

use crate::chunk::Cut;
use crate::cutter::Cutter;
use go_ast::{Mark, Mem, Token, TokenKind};
use std::alloc::Global;
use type_parser::mark_at;

/// What a token is, where brackets and semicolons alone count.
fn cutting_mark(source: &[u8], token: &Token) -> Mark
    ensures { CutsAs result
        (spec.mark_of token.now.kind (spec.text_of source.now token.now.span)) }
{
    match token.kind {
        TokenKind::Operator | TokenKind::Semi | TokenKind::AutoSemi => mark_at(source, token),
        _ => Mark::Other,
    }
}

/// The chunks of a file: the runs of its tokens between semicolons outside brackets, without empty
/// ones, in their order; or where its brackets don't nest (Go specification, "Source file
/// organization").
///
/// `NoMemory` comes where an allocation is refused. The memory is in proportion to the chunks and
/// to the brackets that are open at once.
pub fn chunks_of(alloc: Global, source: &[u8], tokens: &[Token]) -> Mem<Cut>
    requires { length tokens.now < 2 ^ 32 }
    ensures { IfOk result (λ cut. IsCut source.now tokens.now cut) }
{
    let mut cutter = Cutter::new(alloc);
    let mut place = 0;
    for token in tokens {
        let mark = cutting_mark(source, token);
        if !cutter.take(place, token.span.start, mark)? {
            return Ok(Cut::Unbalanced(token.span.start));
        }
        place += 1;
    }
    cutter.finish(place)
}
