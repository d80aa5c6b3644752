//! How a run ended.

ghost use Rattle.std.specs.Prelude.{◌≡◌, option_copied};
ghost use Rattle.godoc_commands.specs.Status.{exit_status_of, message_of};

use crate::scan::ScanFault;
use session::SessionEnd;

/// How a run ended.
#[derive(Clone, Copy, Debug, PartialEq, Eq)]
pub enum Status {
    /// All was written. After `answer` its session ended closed, refused or full.
    Done,
    /// The words are no command.
    Usage,
    /// The tree could not be listed.
    TreeFault,
    /// The tree is too large. It carries the number that passed its limit, and 0 for the other.
    Limit {
        /// The number of files.
        files: u64,
        /// The number of bytes.
        bytes: u64,
    },
    /// The input could not be read.
    ReadFault,
    /// The output could not be written.
    WriteFault,
    /// An allocation was refused.
    NoMemory,
    /// A door failed.
    DoorFault,
}

impl From<ScanFault> for Status {
    ghost use Rattle.std.specs.Prelude.{◌≡◌};
    ghost use Rattle.godoc_commands.specs.Steps.{status_of};

    ghost from_gives = { λ fault status. status ≡ status_of fault };

    fn from(fault: ScanFault) -> Status {
        match fault {
            ScanFault::TreeFault => Status::TreeFault,
            ScanFault::TooManyFiles(files) => Status::Limit { files, bytes: 0 },
            ScanFault::TooManyBytes(bytes) => Status::Limit { files: 0, bytes },
            ScanFault::NoMemory => Status::NoMemory,
        }
    }
}

impl From<SessionEnd> for Status {
    ghost use Rattle.std.specs.Prelude.{◌≡◌};
    ghost use Rattle.godoc_commands.specs.Serving.{status_after};

    ghost from_gives = { λ end status. status ≡ status_after end };

    fn from(end: SessionEnd) -> Status {
        match end {
            SessionEnd::Closed | SessionEnd::Refused | SessionEnd::Full => Status::Done,
            SessionEnd::ReadFault => Status::ReadFault,
            SessionEnd::WriteFault => Status::WriteFault,
            SessionEnd::NoMemory => Status::NoMemory,
        }
    }
}

impl Status {
    /// The exit status of a program that ends so.
    pub fn exit_status(self) -> u8
        ensures { result ≡ exit_status_of self }
    {
        match self {
            Status::Done => 0,
            Status::Usage => 2,
            Status::TreeFault => 3,
            Status::Limit { .. } => 4,
            Status::ReadFault => 5,
            Status::WriteFault => 6,
            Status::NoMemory => 7,
            Status::DoorFault => 8,
        }
    }

    /// The line that a program which ends so writes to standard error, if there is one.
    pub fn message(self) -> Option<&'static str>
        ensures { option_copied result ≡ message_of self }
    {
        match self {
            Status::Done => None,
            Status::Usage => Some(
                "usage: godoc ROOT [options] find NAME | answer | gen START PACKAGES | serve PORT",
            ),
            Status::TreeFault => Some("godoc: the tree could not be listed"),
            Status::Limit { .. } => Some("godoc: too large"),
            Status::ReadFault => Some("godoc: reading failed"),
            Status::WriteFault => Some("godoc: writing failed"),
            Status::NoMemory => Some("godoc: no memory"),
            Status::DoorFault => Some("godoc: a door failed"),
        }
    }
}
