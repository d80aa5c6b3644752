//! Why a session ended.

use plain_data::NoMemory;

/// Why a session ended.
#[derive(Clone, Copy, Debug, PartialEq, Eq)]
pub enum SessionEnd {
    /// The last request that was answered asked for a close, or the input ended between two
    /// requests.
    Closed,
    /// What came can't be a request that is answered, and the bad reply says so.
    Refused,
    /// The 1,000th reply was written, whose request didn't ask for a close.
    Full,
    /// A read failed: the link's count of failed reads rose by one, or stands at its end.
    ReadFault,
    /// A write failed: the link's count of failed writes rose by one, or stands at its end.
    WriteFault,
    /// An allocation was refused.
    NoMemory,
}

/// Why a session stopped before an end that its requests give.
#[derive(Clone, Copy, Debug, PartialEq, Eq)]
pub(crate) enum Stop {
    /// A read failed.
    ReadFault,
    /// A write failed.
    WriteFault,
    /// An allocation was refused.
    NoMemory,
}

impl From<NoMemory> for Stop {
    ghost use Rattle.std.specs.Prelude.{◌≡◌};
    ghost use Rattle.session.specs.declared.session_end.Stop.TheVariants as stops;

    ghost from_gives = { λ _ stop. stop ≡ stops.NoMemory };

    fn from(_: NoMemory) -> Stop {
        Stop::NoMemory
    }
}

impl From<Stop> for SessionEnd {
    ghost use Rattle.std.specs.Prelude.{◌≡◌};
    ghost use Rattle.session.specs.Steps.{end_after};

    ghost from_gives = { λ stop end. end ≡ end_after stop };

    fn from(stop: Stop) -> SessionEnd {
        match stop {
            Stop::ReadFault => SessionEnd::ReadFault,
            Stop::WriteFault => SessionEnd::WriteFault,
            Stop::NoMemory => SessionEnd::NoMemory,
        }
    }
}
