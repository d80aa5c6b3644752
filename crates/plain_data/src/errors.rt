//! How calls fail that can run out of memory, and calls that reach outside the program.

use std::alloc::{AllocError, AllocFailed};
use std::error::Error;
use std::io::ErrorKind;
use std::{fmt, io};

/// An allocation was refused. It is the one failure that no contract ties to a cause.
#[derive(Clone, Copy, Debug, PartialEq, Eq)]
pub struct NoMemory;

/// What a call returns that can fail only with `NoMemory`.
pub type Mem<T> = Result<T, NoMemory>;

/// A call to the outside failed: the count of faults of the object that was called rose, or stands
/// at the end of its type.
#[derive(Clone, Copy, Debug, PartialEq, Eq)]
pub struct Failed;

/// Why a call to the outside that also takes memory failed.
#[derive(Clone, Copy, Debug, PartialEq, Eq)]
pub enum IoFail {
    /// The outside failed, and the count of faults says so.
    Failed,
    /// An allocation was refused.
    NoMemory,
}

impl fmt::Display for NoMemory {
    fn fmt<W: fmt::Write>(&self, f: &mut fmt::Formatter<W>) -> fmt::Result {
        write!(f, "no memory")
    }
}

impl Error for NoMemory {}

impl From<AllocError> for NoMemory {
    fn from(_: AllocError) -> NoMemory {
        NoMemory
    }
}

impl<T: Drop> From<AllocFailed<T>> for NoMemory {
    fn from(_: AllocFailed<T>) -> NoMemory {
        NoMemory
    }
}

impl fmt::Display for Failed {
    fn fmt<W: fmt::Write>(&self, f: &mut fmt::Formatter<W>) -> fmt::Result {
        write!(f, "the outside failed")
    }
}

impl Error for Failed {}

impl fmt::Display for IoFail {
    fn fmt<W: fmt::Write>(&self, f: &mut fmt::Formatter<W>) -> fmt::Result {
        match self {
            IoFail::Failed => write!(f, "the outside failed"),
            IoFail::NoMemory => write!(f, "no memory"),
        }
    }
}

impl Error for IoFail {}

impl From<NoMemory> for IoFail {
    ghost use Rattle.std.specs.Prelude.{◌≡◌};
    ghost use Rattle.plain_data.specs.declared.errors.IoFail.TheVariants as causes;

    ghost from_gives = { λ _ e. e ≡ causes.NoMemory };

    fn from(_: NoMemory) -> IoFail {
        IoFail::NoMemory
    }
}

impl From<io::Error> for IoFail {
    ghost use Rattle.plain_data.specs.Causes.{IsFailOf};

    ghost from_gives = { IsFailOf };

    /// `NoMemory` exactly where the system says that memory was wanting.
    fn from(error: io::Error) -> IoFail {
        match error.kind() {
            ErrorKind::OutOfMemory => IoFail::NoMemory,
            _ => IoFail::Failed,
        }
    }
}

impl From<AllocError> for IoFail {
    ghost use Rattle.std.specs.Prelude.{◌≡◌};
    ghost use Rattle.plain_data.specs.declared.errors.IoFail.TheVariants as causes;

    ghost from_gives = { λ _ e. e ≡ causes.NoMemory };

    fn from(_: AllocError) -> IoFail {
        IoFail::NoMemory
    }
}

impl<T: Drop> From<AllocFailed<T>> for IoFail {
    ghost use Rattle.std.specs.Prelude.{◌≡◌};
    ghost use Rattle.plain_data.specs.declared.errors.IoFail.TheVariants as causes;

    ghost from_gives = { λ _ e. e ≡ causes.NoMemory };

    fn from(_: AllocFailed<T>) -> IoFail {
        IoFail::NoMemory
    }
}
