//! What words spell: the public calls over `Words`. The second clause of each says by which program
//! on lists it is read.

ghost use Rattle.std.specs.Prelude.{◌≡◌, IfOk, List, MatchOption};
ghost use Rattle.go_ast.specs.Cutting.{pieces};
ghost use Rattle.go_ast.specs.Types.{Declared, IsSignature, Spells};
ghost use Rattle.go_ast.specs.TypeParameters.{AreTypeParams, Entries};
ghost use Rattle.go_ast.specs.declared.declaration.TypeParam.{TypeParam};
ghost use Rattle.go_ast.specs.declared.token.Span.{Span};
ghost use Rattle.go_ast.specs.declared.tree.Signature.{Signature};
ghost use Rattle.go_ast.specs.declared.tree.TheConstants.{MAX_TYPE_LEVELS};
ghost use Rattle.go_ast.specs.declared.tree.TypeExpr.{TypeExpr};
ghost use Rattle.go_ast.specs.declared.word.Mark.TheVariants as marks;
ghost use Rattle.type_parser.specs.Reading as reading;
ghost use Rattle.type_parser.specs.TypeParams as params;

use crate::reader::{Reader, type_of};
use crate::type_params::is_array_like;
use crate::words::Words;
use go_ast::{MAX_TYPE_LEVELS, Mem, Seq, Signature, Span, TypeExpr, TypeParam};
use std::alloc::Global;

/// The type that words spell, within [`MAX_TYPE_LEVELS`] levels (Go specification, "Types").
///
/// `None` comes exactly where they spell none. `NoMemory` comes where an allocation is refused.
pub fn type_in(alloc: Global, words: &Words<'_>) -> Mem<Option<TypeExpr>>
    ensures spelled { IfOk result (λ found. MatchOption found
        ((typ : TypeExpr) → Spells MAX_TYPE_LEVELS words.now typ → ⊥)
        (λ typ. Spells MAX_TYPE_LEVELS words.now typ)) }
    ensures read { IfOk result (λ found. found ≡ reading.type_of MAX_TYPE_LEVELS words.now) }
{
    type_of(alloc, MAX_TYPE_LEVELS, words)
}

/// The parameters and results that words spell, with types of at most [`MAX_TYPE_LEVELS`] levels
/// (Go specification, "Function types").
///
/// `None` comes exactly where they spell none. `NoMemory` comes where an allocation is refused.
pub fn signature_in(alloc: Global, words: &Words<'_>) -> Mem<Option<Signature>>
    ensures spelled { IfOk result (λ found. MatchOption found
        ((sig : Signature) → IsSignature (Spells MAX_TYPE_LEVELS) words.now sig → ⊥)
        (λ sig. IsSignature (Spells MAX_TYPE_LEVELS) words.now sig)) }
    ensures read { IfOk result
        (λ found. found ≡ reading.read_signature (reading.type_of MAX_TYPE_LEVELS) words.now) }
{
    Reader {
        alloc,
        levels: MAX_TYPE_LEVELS,
        part: type_of,
    }
    .signature(words)
}

/// The names and the type of at most [`MAX_TYPE_LEVELS`] levels that words declare, with commas
/// between the names, as a field or a variable does (Go specification, "Struct types", "Variable
/// declarations").
///
/// `None` comes exactly where they declare none so. `NoMemory` comes where an allocation is
/// refused.
pub fn declared_in(alloc: Global, words: &Words<'_>) -> Mem<Option<(Seq<Span>, TypeExpr)>>
    ensures spelled { IfOk result (λ found. MatchOption found
        ((names : List Span) (typ : TypeExpr)
        → Declared (Spells MAX_TYPE_LEVELS) words.now names typ → ⊥)
        (λ p. Declared (Spells MAX_TYPE_LEVELS) words.now p.0 p.1)) }
    ensures read { IfOk result
        (λ found. found ≡ reading.declared (reading.type_of MAX_TYPE_LEVELS) words.now) }
{
    Reader {
        alloc,
        levels: MAX_TYPE_LEVELS,
        part: type_of,
    }
    .declared(words)
}

/// The type parameters that the words between two brackets spell after the name of a function, with
/// bounds of at most [`MAX_TYPE_LEVELS`] levels (Go specification, "Type parameter declarations").
///
/// `None` comes exactly where they spell none. `NoMemory` comes where an allocation is refused.
pub fn entries_in(alloc: Global, words: &Words<'_>) -> Mem<Option<Seq<TypeParam>>>
    ensures spelled { IfOk result (λ found. MatchOption found
        ((entries : List TypeParam) → Entries (pieces marks.Comma words.now) entries → ⊥)
        (λ entries. Entries (pieces marks.Comma words.now) entries)) }
    ensures read { IfOk result
        (λ found. found ≡ params.read_entries (reading.type_of MAX_TYPE_LEVELS) words.now) }
{
    Reader {
        alloc,
        levels: MAX_TYPE_LEVELS,
        part: type_of,
    }
    .type_params(words)
}

/// The type parameters that the words between two brackets spell after the name of a type
/// declaration, where they may be the length of an array instead (Go specification, "Type parameter
/// declarations").
///
/// `None` comes exactly where they spell none, or could be a length. `NoMemory` comes where an
/// allocation is refused.
pub fn type_params_in(alloc: Global, words: &Words<'_>) -> Mem<Option<Seq<TypeParam>>>
    ensures spelled { IfOk result (λ found. MatchOption found
        ((entries : List TypeParam) → AreTypeParams words.now entries → ⊥)
        (λ entries. AreTypeParams words.now entries)) }
    ensures read { IfOk result
        (λ found. found ≡ params.read_type_params (reading.type_of MAX_TYPE_LEVELS) words.now) }
{
    if is_array_like(words) {
        Ok(None)
    } else {
        entries_in(alloc, words)
    }
}
