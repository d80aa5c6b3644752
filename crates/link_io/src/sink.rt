//! Where bytes go.

ghost use Rattle.std.specs.Prelude.{ℕ, List, [], OnOk, OnErr};
ghost use Rattle.std.specs.declared.option.Option.{Option};
ghost use Rattle.plain_data.specs.Causes.{HasCause};
ghost use Rattle.link_io.specs.Beside.{Beside, Leaves, nothing};
ghost use Rattle.link_io.specs.Streams.{Adds, AddsPart, WritesFrom};

use plain_data::Failed;

/// Where bytes go, by the bytes that were written.
pub trait Sink {
    /// The bytes that the sink holds, in their order. A sink needn't expose them.
    ghost held: { Self → Option (List ℕ) };

    /// The number of writes that failed. It stops at 2^64 - 1.
    ghost write_faults: { Self → ℕ };

    /// What writes leave unchanged: the other side of a link.
    ghost beside: { Self → Beside } = { λ _. nothing };

    /// The ghost names of the references in the sink. Calls don't change them, so that whoever lent
    /// them knows what became of the values they refer to.
    ghost references: { Self → List ℕ } = { λ _. [] };

    /// Adds the first bytes of a piece after those that are held, and returns how many: from 1 to
    /// the piece's length, and 0 for an empty piece.
    ///
    /// # Errors
    ///
    /// [`Failed`] only if the count of faults rose by one in this call, or stands at its end. A
    /// write that fails adds no byte; after one that succeeds the count is unchanged.
    fn write(&mut self, piece: &[u8]) -> Result<usize, Failed>
        ensures bytes { WritesFrom (held self.old) (held self.new) piece.now result }
        ensures cause { HasCause (write_faults self.old) (write_faults self.new) result }
        ensures leaves { Leaves beside references self.old self.new };
}

/// Adds a whole piece, by one write after another. It takes no memory.
///
/// # Errors
///
/// [`Failed`] only if the count of faults rose by one in this call, since one write failed, or
/// stands at its end. The sink then has a prefix of the piece, and not the whole. After a success
/// the count is unchanged.
pub fn write_whole<O: Sink>(out: &mut O, piece: &[u8]) -> Result<(), Failed>
    ensures ok { OnOk result (Adds (O.held out.old) piece.now (O.held out.new)) }
    ensures failed { OnErr result (AddsPart (O.held out.old) piece.now (O.held out.new)) }
    ensures cause { HasCause (O.write_faults out.old) (O.write_faults out.new) result }
    ensures leaves { Leaves O.beside O.references out.old out.new }
{
    let mut written = 0;
    while written < piece.len() {
        written += out.write(&piece[written..])?;
    }
    Ok(())
}
