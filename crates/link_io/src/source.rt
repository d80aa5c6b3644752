//! Where bytes come from.

ghost use Rattle.std.specs.Prelude.{ℕ, List, []};
ghost use Rattle.std.specs.declared.option.Option.{Option};
ghost use Rattle.plain_data.specs.Causes.{HasCause};
ghost use Rattle.link_io.specs.Beside.{Beside, Leaves, nothing};
ghost use Rattle.link_io.specs.Streams.{ReadsInto};

use plain_data::Failed;

/// Where bytes come from, by the bytes that remain to be read.
pub trait Source {
    /// The bytes that remain, in their order. A source needn't expose them.
    ghost remaining: { Self → Option (List ℕ) };

    /// The number of reads that failed. It stops at 2^64 - 1.
    ghost read_faults: { Self → ℕ };

    /// What reads leave unchanged: the other side of a link.
    ghost beside: { Self → Beside } = { λ _. nothing };

    /// The ghost names of the references in the source. Calls don't change them, so that whoever
    /// lent them knows what became of the values they refer to.
    ghost references: { Self → List ℕ } = { λ _. [] };

    /// Moves the first bytes that remain to the beginning of a buffer, and returns how many, at
    /// most the buffer's length. `Ok(0)` for a buffer that isn't empty is the end of the input: if
    /// the bytes are exposed, it comes if and only if none remain. What follows the bytes in the
    /// buffer may change.
    ///
    /// # Errors
    ///
    /// [`Failed`] only if the count of faults rose by one in this call, or stands at its end. A
    /// read that fails takes no byte; after one that succeeds the count is unchanged.
    fn read(&mut self, buf: &mut [u8]) -> Result<usize, Failed>
        ensures bytes { ReadsInto (remaining self.old) (remaining self.new) buf.new result }
        ensures cause { HasCause (read_faults self.old) (read_faults self.new) result }
        ensures leaves { Leaves beside references self.old self.new };
}
