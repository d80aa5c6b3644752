//! One token after another, with the brackets that are open.

ghost use Rattle.std.specs.Prelude.{◌≡◌, ℕ, ◌+◌, ◌^◌, ◌<◌, ◌≤◌, ◌∷◌, [], ◌++◌, List, IfOk};
ghost use Rattle.std.specs.Prelude.{MatchBool, OnOk, reverse, true};
ghost use Rattle.go_ast.specs.declared.word.Word.{Word};
ghost use Rattle.go_ast.specs.Chunks.{IsUnbalancedAt};
ghost use Rattle.go_ast.specs.Cutting as cutting;
ghost use Rattle.go_ast.specs.Marks.{closes};
ghost use Rattle.go_ast.specs.declared.word.Mark.TheVariants as marks;
ghost use Rattle.go_parser.specs.Cutter.{CutsAs, IsCutOf, Reached};

use crate::chunk::{Chunk, Cut};
use go_ast::{Mark, Mem, TokenRange};
use std::alloc::Global;

/// A bracket that is open.
#[derive(Clone, Copy, Debug, PartialEq, Eq)]
pub struct OpenBracket {
    /// The place of its token.
    pub place: u32,
    /// The byte offset of its token.
    pub offset: u32,
    /// The bracket that closes it.
    pub closing: Mark,
}

/// What the tokens so far are cut into.
#[derive(Debug, Drop)]
pub struct Cutter {
    /// The chunks that have ended.
    pub chunks: Vec<Chunk>,
    /// The brackets that are open, the innermost last.
    pub brackets: Vec<OpenBracket>,
    /// The place where the chunk under way begins.
    pub first: u32,
    /// The place of the bracket that the last token closes, where it closes one.
    pub opened: Option<u32>,
}

/// The bracket that closes an opening one.
fn closing_of(mark: Mark) -> Mark
    ensures { result ≡ cutting.closing_of mark }
{
    match mark {
        Mark::OpenParen => Mark::CloseParen,
        Mark::OpenBracket => Mark::CloseBracket,
        _ => Mark::CloseBrace,
    }
}

impl Cutter {
    /// Before the first token.
    pub fn new(alloc: Global) -> Cutter
        ensures { (words : List Word)
            → Reached words words 0 result.chunks.items (reverse result.brackets.items)
            result.first result.opened }
    {
        Cutter {
            chunks: Vec::new(alloc),
            brackets: Vec::new(alloc),
            first: 0,
            opened: None,
        }
    }

    /// Ends the chunk under way before this place, where it has a token.
    fn end_chunk(&mut self, place: u32) -> Mem<()>
        ensures some { OnOk result (self.old.first < place → self.new.chunks.items
            ≡ self.old.chunks.items ++ record {
              tokens = record { first = self.old.first; after = place };
              opened = self.old.opened;
            } ∷ []) }
        ensures none { OnOk result (place ≤ self.old.first
            → self.new.chunks.items ≡ self.old.chunks.items) }
        ensures brackets { self.new.brackets ≡ self.old.brackets }
        ensures first { self.new.first ≡ self.old.first }
    {
        if self.first < place {
            self.chunks.push(Chunk {
                tokens: TokenRange {
                    first: self.first,
                    after: place,
                },
                opened: self.opened,
            })?;
        }
        Ok(())
    }

    /// Closes the innermost open bracket by this mark, or gives `false` where it doesn't match.
    fn close(&mut self, mark: Mark) -> bool
        ensures { (words rest : List Word) (w : Word) (place : ℕ) → w.tokens.first ≡ place
            → CutsAs mark w.mark → closes w.mark ≡ true
            → Reached words (w ∷ rest) place self.old.chunks.items (reverse self.old.brackets.items)
            self.old.first self.old.opened → MatchBool result
            (Reached words rest (place + 1) self.new.chunks.items (reverse self.new.brackets.items)
            self.new.first self.new.opened) (IsUnbalancedAt words w) }
    {
        match self.brackets.pop() {
            Some(bracket) if mark.is(bracket.closing) => {
                self.opened = Some(bracket.place);
                true
            }
            _ => false,
        }
    }

    fn take_semicolon(&mut self, place: u32) -> Mem<()>
        requires { place + 1 < 2 ^ 32 }
        ensures { OnOk result ((words rest : List Word) (w : Word) → w.mark ≡ marks.Semi
            → w.tokens.first ≡ place
            → Reached words (w ∷ rest) place self.old.chunks.items (reverse self.old.brackets.items)
            self.old.first self.old.opened
            → Reached words rest (place + 1) self.new.chunks.items (reverse self.new.brackets.items)
            self.new.first self.new.opened) }
    {
        if self.brackets.is_empty() {
            self.end_chunk(place)?;
            self.first = place + 1;
            self.opened = None;
            return Ok(());
        }
        self.opened = None;
        Ok(())
    }

    /// Takes the token at this place and offset, or gives `false` where it closes no bracket.
    pub fn take(&mut self, place: u32, offset: u32, mark: Mark) -> Mem<bool>
        requires { place + 1 < 2 ^ 32 }
        ensures { IfOk result (λ goes. (words rest : List Word) (w : Word)
            → w.tokens.first ≡ place → w.span.start ≡ offset → CutsAs mark w.mark
            → Reached words (w ∷ rest) place self.old.chunks.items (reverse self.old.brackets.items)
            self.old.first self.old.opened → MatchBool goes
            (Reached words rest (place + 1) self.new.chunks.items (reverse self.new.brackets.items)
            self.new.first self.new.opened) (IsUnbalancedAt words w)) }
    {
        if mark.closes() {
            return Ok(self.close(mark));
        }
        if mark.is(Mark::Semi) {
            self.take_semicolon(place)?;
            return Ok(true);
        }
        self.opened = None;
        if mark.opens() {
            self.brackets.push(OpenBracket {
                place,
                offset,
                closing: closing_of(mark),
            })?;
        }
        Ok(true)
    }

    /// What all tokens are cut into, where this is their count.
    pub fn finish(mut self, count: u32) -> Mem<Cut>
        ensures { IfOk result (λ cut. (words : List Word) → Reached words [] count
            self.chunks.items (reverse self.brackets.items) self.first self.opened
            → IsCutOf words cut) }
    {
        if let [bracket, ..] = self.brackets.as_slice() {
            return Ok(Cut::Unbalanced(bracket.offset));
        }
        self.end_chunk(count)?;
        Ok(Cut::Chunks(self.chunks))
    }
}
