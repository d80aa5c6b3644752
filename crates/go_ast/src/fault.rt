//! Why a source is refused.

ghost use Rattle.std.specs.Prelude.{◌≡◌, IfOk};

use plain_data::{Mem, NoMemory, Txt};
use std::alloc::Global;
use std::error::Error;
use std::fmt;

/// Why a source has no reading, or a file no place among the documented ones. Offsets count bytes
/// from 0, lines and chunks from 1.
#[derive(Debug, Drop)]
pub enum Fault {
    /// The source isn't UTF-8. It carries the length of its longest prefix that is.
    NotUtf8(u32),
    /// Something that can't be read as a token begins at this offset.
    BadToken(u32),
    /// A general comment without an end begins at this offset.
    OpenComment(u32),
    /// A rune or text without its closing mark begins at this offset.
    OpenString(u32),
    /// The bracket at this offset doesn't match, or is left open.
    Unbalanced(u32),
    /// The file doesn't begin with a package clause.
    NoPackageClause,
    /// This chunk of the file, whose first token stands on this line, is no declaration.
    BadDeclaration(u32, u32),
    /// The file names this package, next to another in its folder.
    OtherPackage(Txt),
    /// The file has more than [`MAX_SOURCE_BYTES`](crate::MAX_SOURCE_BYTES) bytes.
    FileTooLarge,
    /// The file could not be read.
    Unread,
    /// The build line on this line is malformed, or is a second one.
    BadBuildLine(u32),
}

/// Why a call on a source failed.
#[derive(Debug, Drop)]
pub enum Refused {
    /// The source has this fault.
    Fault(Fault),
    /// An allocation was refused.
    NoMemory,
}

impl From<NoMemory> for Refused {
    ghost use Rattle.std.specs.Prelude.{◌≡◌};
    ghost use Rattle.go_ast.specs.declared.fault.Refused.TheVariants as refusals;

    ghost from_gives = { λ _ refused. refused ≡ refusals.NoMemory };

    fn from(_: NoMemory) -> Refused {
        Refused::NoMemory
    }
}

impl fmt::Display for Fault {
    fn fmt<W: fmt::Write>(&self, f: &mut fmt::Formatter<W>) -> fmt::Result {
        match self {
            Fault::NotUtf8(offset) => write!(f, "fault 1: not UTF-8 at byte {offset}"),
            Fault::BadToken(offset) => write!(f, "fault 2: bad token at byte {offset}"),
            Fault::OpenComment(offset) => write!(f, "fault 3: open comment at byte {offset}"),
            Fault::OpenString(offset) => write!(f, "fault 4: open string at byte {offset}"),
            Fault::Unbalanced(offset) => write!(f, "fault 5: unbalanced at byte {offset}"),
            Fault::NoPackageClause => write!(f, "fault 6: no package clause"),
            Fault::BadDeclaration(chunk, line) => {
                write!(f, "fault 7: bad declaration {chunk} at line {line}")
            }
            Fault::OtherPackage(name) => {
                let name = name.as_str();
                write!(f, "fault 8: package {name} beside another package")
            }
            Fault::FileTooLarge => write!(f, "fault 11: file too large"),
            Fault::Unread => write!(f, "fault 12: unread"),
            Fault::BadBuildLine(line) => write!(f, "fault 13: bad build line {line}"),
        }
    }
}

impl Error for Fault {}

/// A copy of a fault, which equals it.
pub fn copy_fault(alloc: Global, fault: &Fault) -> Mem<Fault>
    ensures { IfOk result (λ copy. copy ≡ fault.now) }
{
    Ok(match fault {
        Fault::NotUtf8(length) => Fault::NotUtf8(*length),
        Fault::BadToken(offset) => Fault::BadToken(*offset),
        Fault::OpenComment(offset) => Fault::OpenComment(*offset),
        Fault::OpenString(offset) => Fault::OpenString(*offset),
        Fault::Unbalanced(offset) => Fault::Unbalanced(*offset),
        Fault::NoPackageClause => Fault::NoPackageClause,
        Fault::BadDeclaration(chunk, line) => Fault::BadDeclaration(*chunk, *line),
        Fault::OtherPackage(name) => Fault::OtherPackage(Txt::from_str(alloc, name.as_str())?),
        Fault::FileTooLarge => Fault::FileTooLarge,
        Fault::Unread => Fault::Unread,
        Fault::BadBuildLine(line) => Fault::BadBuildLine(*line),
    })
}
