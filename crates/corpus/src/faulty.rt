//! The faults of the files of a snapshot, in the order of the files.

ghost use Rattle.std.specs.Prelude.{◌≡◌, ◌<◌, Some, IfOk, false, length, nat_eq};
ghost use Rattle.std.specs.List.{list_any, slice_index_or};
ghost use Rattle.corpus_piece.specs.Pieces.{JudgedFile};
ghost use Rattle.corpus.specs.declared.faults.FileFault.{FileFault};
ghost use Rattle.corpus.specs.Corpora.{AreFilesOf, fault_as, faults_of, other_package};
ghost use Rattle.corpus.specs.Corpora.{package_name};
ghost use Rattle.corpus.specs.Steps.{AreBeside, AreRising, HasName, seen};

use crate::accepted::Accepted;
use crate::faults::FileFault;
use crate::snapshot::Snapshot;
use corpus_piece::{Outcome, Piece};
use go_ast::{Fault, Mem, Seq, Txt, copy_fault};
use std::alloc::Global;

/// Whether a number is among rising numbers.
pub(crate) fn is_among(numbers: &[u32], number: u32) -> bool
    requires { AreRising numbers.now }
    ensures { result ≡ list_any (nat_eq number) numbers.now }
{
    numbers.binary_search(&number).is_ok()
}

/// The fault of an accepted file that stands next to a package of another name.
fn other_package(alloc: Global, file: &Accepted) -> Mem<FileFault>
    requires { HasName (seen file.now) }
    ensures { IfOk result (λ fault. Some fault ≡ other_package false (seen file.now)) }
{
    let name = Txt::from_str(alloc, file.package_name())?;
    Ok(FileFault {
        file: file.number,
        fault: Fault::OtherPackage(name),
    })
}

/// The fault of a file, where it has one: that of its outcome, or that it is among those that stand
/// next to packages of other names.
fn fault_of(
    alloc: Global,
    snapshot: &Snapshot,
    pieces: &[Piece],
    beside: &[u32],
    number: u32,
) -> Mem<Option<FileFault>>
    requires files { AreFilesOf snapshot.now pieces.now }
    requires beside { AreBeside pieces.now beside.now }
    requires within { number < length snapshot.now.entries }
    ensures { (d : JudgedFile) → let f = slice_index_or pieces.now number d in
        IfOk result (λ fault. fault ≡ fault_as pieces.now f f.outcome) }
{
    match pieces[number as usize].outcome() {
        Outcome::Ignored(_) => Ok(None),
        Outcome::Faulty(fault) => Ok(Some(FileFault {
            file: number,
            fault: copy_fault(alloc, fault)?,
        })),
        Outcome::Accepted(parsed) => {
            if !is_among(beside, number) {
                return Ok(None);
            }
            let file = Accepted::new(snapshot, number, parsed);
            Ok(Some(other_package(alloc, &file)?))
        }
    }
}

/// The faults of the files of a snapshot, where these numbers are those of the accepted files that
/// stand next to packages of other names.
pub(crate) fn faults_of(
    alloc: Global,
    snapshot: &Snapshot,
    pieces: &[Piece],
    beside: &[u32],
) -> Mem<Seq<FileFault>>
    requires files { AreFilesOf snapshot.now pieces.now }
    requires beside { AreBeside pieces.now beside.now }
    ensures { IfOk result (λ faults. faults ≡ faults_of pieces.now) }
{
    let mut faults = Vec::new(alloc);
    for number in 0..snapshot.files() {
        if let Some(fault) = fault_of(alloc, snapshot, pieces, beside, number)? {
            faults.push(fault)?;
        }
    }
    faults.shrink_to_fit();
    Ok(Seq::from_vec(faults))
}
