//! What holds of every file.

ghost use Rattle.std.specs.Prelude.{◌≡◌, ℕ, List};
ghost use Rattle.go_ast.specs.declared.config.Config.{Config};
ghost use Rattle.tree_io.specs.declared.tree.Entry.{Entry};
ghost use Rattle.corpus_piece.specs.declared.outcome.Outcome.{Outcome};
ghost use Rattle.corpus_piece.specs.Outcomes.{IsOutcomeOf};

use build_lines::one_expression;
use go_parser::one_file_or_fault;
use go_scanner::one_reading_or_fault;

/// A file has at most one outcome, and that it has none can't be, as the clauses say for all paths,
/// entries, configurations and numbers. The call does nothing.
pub fn one_outcome()
    ensures one { (path : List ℕ) (entry : Entry) (config : Config) (number : ℕ) (x y : Outcome)
        → IsOutcomeOf path entry config number x → IsOutcomeOf path entry config number y
        → x ≡ y }
    ensures some { (path : List ℕ) (entry : Entry) (config : Config) (number : ℕ)
        → ((x : Outcome) → IsOutcomeOf path entry config number x → ⊥) → ⊥ }
{
    one_expression();
    one_reading_or_fault();
    one_file_or_fault();
}
