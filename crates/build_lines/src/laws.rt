//! What holds of every text.

ghost use Rattle.std.specs.Prelude.{◌≡◌, ℕ, List};
ghost use Rattle.build_lines.specs.Expressions.{Expression, Spells};

/// Each text spells at most one expression, as the clause says for all lists of bytes. The call
/// does nothing.
pub fn one_expression()
    ensures { (bytes : List ℕ) (expression other : Expression)
        → Spells bytes expression → Spells bytes other → expression ≡ other }
{}
