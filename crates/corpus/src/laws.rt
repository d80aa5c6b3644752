//! What holds of every corpus.

ghost use Rattle.std.specs.Prelude.{◌≡◌, ℕ, List};
ghost use Rattle.corpus.specs.declared.tables.Tables.{Tables};
ghost use Rattle.corpus.specs.Corpora.{HasHitsByName, IsCorpusOf};
ghost use Rattle.corpus.specs.Snapshots.{SourceSet};

use corpus_piece::one_outcome;
use ident_index::one_table;
use package_group::one_grouping;

/// A set of sources has at most one corpus, as the clause says for all sets of sources. The call
/// does nothing.
pub fn one_corpus()
    ensures { (s : SourceSet) (t u : Tables) → IsCorpusOf s t → IsCorpusOf s u → t ≡ u }
{
    one_outcome();
    one_grouping();
    one_table();
}

/// Under each name the table of a corpus has exactly the identifiers with that text of the files
/// that belong to packages, rising by file and offset. The call does nothing.
pub fn hits_by_name()
    ensures { (s : SourceSet) (t : Tables) (name : List ℕ) → IsCorpusOf s t
        → HasHitsByName t name }
{}
