//! What holds of every output of the program.

ghost use Rattle.std.specs.Prelude.{◌≡◌, ℕ, List};
ghost use Rattle.corpus.specs.Snapshots.{SourceSet};
ghost use Rattle.godoc_commands.specs.Find.{IsFindText};

use corpus_piece::one_outcome;

/// `find` has at most one text for a name over a set of sources. The call does nothing: its
/// contract is the law.
pub fn find_has_one_text()
    ensures { (name : List ℕ) (sources : SourceSet) (text other : List ℕ)
        → IsFindText name sources text → IsFindText name sources other → text ≡ other }
{
    one_outcome();
}
