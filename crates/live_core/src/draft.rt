//! An edition that is being made.

ghost use Rattle.std.specs.Prelude.{◌≡◌, ◌↔◌, true, false, IfOk, IsTrue, MatchBool, MatchOption, replicate, slice_get, slice_set};
ghost use Rattle.live_core.specs.State.{DraftState};
ghost use Rattle.live_core.specs.Steps.{missing_of};

use crate::event::NotLegal;
use plain_data::Mem;
use std::alloc::Global;
use std::marker::Model;

/// An edition that is being made, seen by contracts as its sources, and for each piece whether it
/// is finished.
#[derive(Drop)]
pub(crate) struct Draft {
    sources: u64,
    finished: Vec<bool>,
    missing: u64,
}

impl Model for Draft {
    ghost use Rattle.std.specs.Prelude.{◌≡◌};
    ghost use Rattle.live_core.specs.Steps.{missing_of};
    ghost use Rattle.live_core.specs.State.{DraftState};

    ghost Value = { DraftState };

    ghost view = { λ draft. record { sources = draft.sources; finished = draft.finished.items } };

    ghost invariant = { λ draft. draft.missing ≡ missing_of draft.finished.items };
}

impl Draft {
    /// An edition of these sources, of whose pieces none is finished.
    ///
    /// # Errors
    ///
    /// `NoMemory` where there is no room for a mark for each piece.
    pub fn new(alloc: Global, sources: u64, pieces: u64) -> Mem<Draft>
        ensures { IfOk result (λ draft. draft ≡ record {
          sources = sources;
          finished = replicate pieces false;
        }) }
    {
        Ok(Draft {
            sources,
            finished: vec![in alloc; false; pieces as usize]?,
            missing: pieces,
        })
    }

    /// What the edition is made of.
    pub fn sources(&self) -> u64
        ensures { result ≡ self.now.sources }
    {
        self.sources
    }

    /// Notes that a piece is finished.
    ///
    /// # Errors
    ///
    /// `UnknownPiece` where the edition has no such piece, and `PieceTwice` where it is finished
    /// already. The draft is then as it was.
    pub fn finish(&mut self, index: u64) -> Result<(), NotLegal>
        ensures { MatchOption (slice_get self.old.finished index)
            ((result ≡ Err NotLegal.UnknownPiece) × (self.new ≡ self.old))
            (λ finished. MatchBool finished
            ((result ≡ Err NotLegal.PieceTwice) × (self.new ≡ self.old))
            ((result ≡ Ok tt) × (self.new ≡ record self.old {
              finished = slice_set self.old.finished index true;
            }))) }
    {
        match self.finished.get(index as usize) {
            None => return Err(NotLegal::UnknownPiece),
            Some(true) => return Err(NotLegal::PieceTwice),
            Some(false) => {}
        }
        self.finished[index as usize] = true;
        self.missing -= 1;
        Ok(())
    }

    /// Whether each piece is finished.
    pub fn is_whole(&self) -> bool
        ensures { IsTrue result ↔ (missing_of self.now.finished ≡ 0) }
    {
        self.missing == 0
    }
}
