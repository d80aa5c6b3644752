//! The faults of the files of a corpus.

use go_ast::Fault;

/// The fault of a file.
#[derive(Debug, Drop)]
pub struct FileFault {
    /// The number of the file.
    pub file: u32,
    /// Why it isn't among the documented files.
    pub fault: Fault,
}
