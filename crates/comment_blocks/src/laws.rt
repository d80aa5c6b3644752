//! Laws of the definitions.

ghost use Rattle.std.specs.Prelude.{◌≡◌, ℕ, List};
ghost use Rattle.go_ast.specs.declared.token.Scanned.{Scanned};
ghost use Rattle.comment_blocks.specs.Groups.{IsDocGroup, IsScan};
ghost use Rattle.comment_blocks.specs.Spans.{IsCutting, Piece, pieces_of};

/// Lines can be cut into maximal plain spans, maximal indented spans and empty lines in exactly one
/// way, so that each line is of exactly one span or is an empty line between spans (Go Doc
/// Comments).
pub fn lines_have_one_cutting()
    ensures one { (lines : List (List ℕ)) → IsCutting (pieces_of lines) lines }
    ensures no_other { (pieces : List Piece) (lines : List (List ℕ)) → IsCutting pieces lines
        → pieces ≡ pieces_of lines }
{}

/// At most one group of comments documents a line: two groups of one scan that end on the line
/// before it, and begin on no line where a token ends, are the same comments (Go Doc Comments).
pub fn one_doc_group()
    ensures { (scanned : Scanned) (line first after other_first other_after : ℕ)
        → IsScan scanned → IsDocGroup scanned line first after
        → IsDocGroup scanned line other_first other_after
        → (first ≡ other_first) × (after ≡ other_after) }
{}
