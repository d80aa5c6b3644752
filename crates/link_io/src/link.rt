//! Both ways of one connection.

ghost use Rattle.std.specs.Prelude.{◌≡◌, [], ◌∷◌};

use crate::sink::Sink;
use crate::source::Source;
use plain_data::Failed;

/// A source and a sink to one peer. A read doesn't change what a write changes, nor a write what a
/// read changes.
pub trait Link: Source + Sink {
    /// A read changes neither the bytes that are held nor the count of failed writes.
    ghost read_leaves: { (link : Self) → Self.Source.beside link
        ≡ record { bytes = Self.held link; faults = Self.write_faults link } };

    /// A write changes neither the bytes that remain nor the count of failed reads.
    ghost write_leaves: { (link : Self) → Self.Sink.beside link
        ≡ record { bytes = Self.remaining link; faults = Self.read_faults link } };

    /// The references of the source are those of the sink.
    ghost one_place: { (link : Self) → Self.Source.references link ≡ Self.Sink.references link };
}

/// A source and a sink of their own, as one link.
#[derive(Drop)]
pub struct Both<'a, I, O> {
    /// Where the link reads.
    pub input: &'a mut I,
    /// Where the link writes.
    pub out: &'a mut O,
}

impl<I: Source, O: Sink> Source for Both<'_, I, O> {
    ghost remaining = { λ both. I.remaining both.input.now };

    ghost read_faults = { λ both. I.read_faults both.input.now };

    ghost beside = { λ both. record {
      bytes = O.held both.out.now;
      faults = O.write_faults both.out.now;
    } };

    ghost references = { λ both. both.input.ghost_name ∷ both.out.ghost_name ∷ [] };

    fn read(&mut self, buf: &mut [u8]) -> Result<usize, Failed> {
        self.input.read(buf)
    }
}

impl<I: Source, O: Sink> Sink for Both<'_, I, O> {
    ghost held = { λ both. O.held both.out.now };

    ghost write_faults = { λ both. O.write_faults both.out.now };

    ghost beside = { λ both. record {
      bytes = I.remaining both.input.now;
      faults = I.read_faults both.input.now;
    } };

    ghost references = { λ both. both.input.ghost_name ∷ both.out.ghost_name ∷ [] };

    fn write(&mut self, piece: &[u8]) -> Result<usize, Failed> {
        self.out.write(piece)
    }
}

impl<I: Source, O: Sink> Link for Both<'_, I, O> {
    ghost use Rattle.std.specs.Prelude.{refl};

    ghost read_leaves = { λ _. refl };

    ghost write_leaves = { λ _. refl };

    ghost one_place = { λ _. refl };
}
