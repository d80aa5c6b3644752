//! What holds of the definitions themselves.

ghost use Rattle.std.specs.Prelude.{◌≡◌, ℕ, List};
ghost use Rattle.const_eval.specs.Expressions.{Expression, IsExpression, a_sum, print};

/// The texts of tokens are at most one expression. The call does nothing.
pub fn one_tree_for_each_run()
    ensures { (first second : Expression) → IsExpression a_sum first → IsExpression a_sum second
        → print first ≡ print second → first ≡ second }
{}
