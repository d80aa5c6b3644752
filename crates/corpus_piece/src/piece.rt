//! The outcome of one file, which knows what it is the outcome of.

ghost use Rattle.std.specs.Prelude.{◌≡◌, IfOk};
ghost use Rattle.corpus_piece.specs.Outcomes.{IsOutcomeOf};
ghost use Rattle.corpus_piece.specs.Pieces.{IsJudged, judged_file};

use crate::outcome::Outcome;
use go_ast::{Config, Mem, Txt};
use std::alloc::Global;
use std::marker::Model;
use std::snapshot::Snapshot;
use std::sync::Arc;
use tree_io::Entry;

/// The outcome of one file, seen by contracts as the file with its outcome: the path, the entry,
/// the configuration and the number that it was made of, and the outcome that the definition gives
/// for these. The entry and the configuration take no bytes.
#[derive(Drop)]
pub struct Piece {
    path: Txt,
    entry: Snapshot<Entry>,
    config: Snapshot<Config>,
    number: u32,
    outcome: Arc<Outcome>,
}

impl Model for Piece {
    ghost use Rattle.corpus_piece.specs.Codes.{judged_code};
    ghost use Rattle.corpus_piece.specs.Pieces.{IsJudged, JudgedFile};
    ghost use Rattle.corpus_piece.specs.Pieces.{judged_file};
    ghost use Rattle.std.specs.Arc.{arc_value};

    ghost Value = { JudgedFile };

    ghost coded = { judged_code };

    ghost view = { λ p. judged_file p.path p.entry.value p.config.value p.number
        (arc_value p.outcome) };

    ghost invariant = { λ p. IsJudged
        (judged_file p.path p.entry.value p.config.value p.number (arc_value p.outcome)) };
}

impl Piece {
    /// The piece of a file with its outcome.
    pub(crate) fn new(
        alloc: Global,
        path: &str,
        entry: &Entry,
        config: &Config,
        number: u32,
        outcome: Outcome,
    ) -> Mem<Piece>
        requires { IsOutcomeOf path.now entry.now config.now number outcome }
        ensures { IfOk result (λ piece.
            piece ≡ judged_file path.now entry.now config.now number outcome) }
    {
        Ok(Piece {
            path: Txt::from_str(alloc, path)?,
            entry: Snapshot::of(entry),
            config: Snapshot::of(config),
            number,
            outcome: Arc::new(alloc, outcome)?,
        })
    }

    /// The path of the file. It takes no memory.
    pub fn path(&self) -> &str
        ensures { result.now ≡ self.now.path }
    {
        self.path.as_str()
    }

    /// What becomes of the file. It takes no memory.
    pub fn outcome(&self) -> &Outcome
        ensures same { result.now ≡ self.now.outcome }
        ensures defined { IsJudged self.now }
    {
        &self.outcome
    }
}
