//! What holds of brackets themselves.

ghost use Rattle.std.specs.Prelude.{◌≡◌, ◌⊎◌, List};
ghost use Rattle.go_ast.specs.declared.word.Word.{Word};
ghost use Rattle.go_ast.specs.Chunks.{AreNested, IsUnbalancedAt};

/// The brackets of words nest, or else there is one bracket where they don't, and no other. The
/// call does nothing.
pub fn one_unbalanced_bracket()
    ensures never_both { (words : List Word) (w : Word) → AreNested words → IsUnbalancedAt words w
        → ⊥ }
    ensures once { (words : List Word) (w v : Word) → IsUnbalancedAt words w
        → IsUnbalancedAt words v → w ≡ v }
    ensures either { (words : List Word)
        → AreNested words ⊎ ((w : Word) × IsUnbalancedAt words w) }
{}
