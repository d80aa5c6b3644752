//! What is computed from a set of sources.

use crate::faults::FileFault;
use corpus_piece::Piece;
use go_ast::Seq;
use ident_index::Postings;
use package_group::Package;

/// What is computed from a set of sources: its files with their outcomes, and the tables over them.
#[derive(Drop)]
pub struct Tables {
    /// The files with their outcomes, by their numbers.
    pub files: Seq<Piece>,
    /// The packages, sorted ascending by path.
    pub packages: Seq<Package>,
    /// The faults, in the order of the files.
    pub faults: Seq<FileFault>,
    /// The identifiers by their names.
    pub postings: Postings,
}
