//! Making the corpus of a snapshot.

ghost use Rattle.std.specs.Prelude.{◌≡◌, ◌<◌, ◌^◌, All, IfOk, length, map};
ghost use Rattle.tree_io.specs.Path.{Belongs};
ghost use Rattle.package_group.specs.Groups.{IsGrouping};
ghost use Rattle.corpus.specs.Corpora.{AreFilesOf, IsEdition, edition, fact_of};
ghost use Rattle.corpus.specs.Steps.{HasName, seen, tables_of};

use crate::accepted::{Accepted, accepted_files, facts};
use crate::corpus::Corpus;
use crate::faults::FileFault;
use crate::faulty::faults_of;
use crate::index::index_of;
use crate::packages::{numbers_of, packages_of};
use crate::snapshot::Snapshot;
use crate::tables::Tables;
use corpus_piece::Piece;
use go_ast::{Mem, Seq};
use ident_index::Postings;
use package_group::{Grouped, Package, group};
use std::alloc::Global;

/// What is made over the files of a corpus.
#[derive(Drop)]
struct Made {
    packages: Seq<Package>,
    faults: Seq<FileFault>,
    postings: Postings,
}

/// The packages of accepted files, which are named by their places.
fn group_files(alloc: Global, prefix: &str, files: &[Accepted]) -> Mem<Grouped>
    requires few { length files.now < 2 ^ 32 }
    requires belong { All (λ file. Belongs file.path.now) files.now }
    requires names { All (λ file. HasName (seen file)) files.now }
    ensures { IfOk result
        (IsGrouping prefix.now (map (λ file. fact_of (seen file)) files.now)) }
{
    let facts = facts(alloc, files)?;
    group(alloc, facts.as_slice(), prefix)
}

/// The tables of a snapshot, whose pieces are these.
fn make_tables(alloc: Global, snapshot: &Snapshot, pieces: &[Piece]) -> Mem<Made>
    requires { AreFilesOf snapshot.now pieces.now }
    ensures { IfOk result (λ made.
        IsEdition (edition snapshot.now (tables_of pieces.now made))) }
{
    let files = accepted_files(alloc, snapshot, pieces)?;
    let files = files.as_slice();
    let prefix = snapshot.config().prefix.as_str();
    let Grouped { packages, others } = group_files(alloc, prefix, files)?;
    let beside = numbers_of(files, others);
    let beside = beside.as_slice();
    Ok(Made {
        packages: packages_of(alloc, files, packages)?,
        faults: faults_of(alloc, snapshot, pieces, beside)?,
        postings: index_of(alloc, files, beside)?,
    })
}

/// The corpus of a snapshot, whose pieces are those of its files, in their order.
///
/// Its packages are those that the accepted files make up, one for each folder (Go specification,
/// "Packages"). Its faults are those of the outcomes, and `OtherPackage` for an accepted file that
/// stands next to a package of another name; such a file is in no package and has no hits. The
/// table
/// has the identifiers of all other accepted files.
///
/// # Errors
/// `NoMemory` where an allocation was refused; the snapshot and the pieces are dropped.
pub fn assemble(alloc: Global, snapshot: Snapshot, pieces: Seq<Piece>) -> Mem<Corpus>
    requires { AreFilesOf snapshot pieces }
    ensures sources { IfOk result (λ corpus. corpus.sources ≡ snapshot) }
    ensures files { IfOk result (λ corpus. corpus.tables.files ≡ pieces) }
    ensures tables { IfOk result IsEdition }
{
    let Made {
        packages,
        faults,
        postings,
    } = make_tables(alloc, &snapshot, pieces.as_slice())?;
    let tables = Tables {
        files: pieces,
        packages,
        faults,
        postings,
    };
    Ok(Corpus::new(snapshot, tables))
}
