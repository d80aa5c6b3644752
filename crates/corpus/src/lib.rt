//! All that is computed from a whole scan of a tree, as one value that nothing changes and that is
//! a function of the scan alone.
//!
//! `specs/Corpora.antt` says what the corpus of a set of sources is; [`assemble`] makes it, and
//! each [`Corpus`] keeps that it is that of its own sources.
//!
//! ```
//! let snapshot = Snapshot::make(alloc, config, entries)?;
//! let corpus = assemble(alloc, snapshot, pieces)?;
//! let package = corpus.find_package("io");
//! let faults = corpus.faults();
//! ```
#![tactic(auto)]

mod accepted;
mod assembly;
mod corpus;
mod faults;
mod faulty;
mod index;
mod laws;
mod packages;
mod snapshot;
mod tables;

pub use assembly::assemble;
pub use corpus::{Corpus, own_tables};
pub use faults::FileFault;
pub use laws::{hits_by_name, one_corpus};
pub use snapshot::{MAX_FILES, MAX_SCAN_BYTES, Snapshot, TooLarge, entry_size};
pub use tables::Tables;
