//! The type of a range of tokens.

ghost use Rattle.std.specs.Prelude.{◌≡◌, ◌≤◌, IfOk, MatchOption, length};
ghost use Rattle.go_ast.specs.declared.tree.TypeExpr.{TypeExpr};
ghost use Rattle.go_ast.specs.Types.{SpellsType};

use crate::grammar::type_in;
use crate::words::matched_words;
use go_ast::{Mem, Scanned, TokenRange, TypeExpr};
use std::alloc::Global;

/// The type that the tokens of a range spell in their source, within
/// [`MAX_TYPE_LEVELS`](go_ast::MAX_TYPE_LEVELS) levels (Go specification, "Types"). The range
/// counts places in the list of tokens.
///
/// `None` comes exactly where they spell none. `NoMemory` comes where an allocation is refused.
pub fn parse_type(
    alloc: Global,
    scanned: &Scanned,
    source: &[u8],
    range: TokenRange,
) -> Mem<Option<TypeExpr>>
    requires ordered { range.first ≤ range.after }
    requires within { range.after ≤ length scanned.now.tokens }
    ensures { IfOk result (λ found. MatchOption found
        ((typ : TypeExpr) → SpellsType source.now scanned.now.tokens range typ → ⊥)
        (λ typ. SpellsType source.now scanned.now.tokens range typ)) }
{
    let words = matched_words(alloc, source, scanned.tokens.as_slice(), range)?;
    type_in(alloc, &words.all())
}
