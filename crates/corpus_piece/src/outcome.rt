//! What is said of a file.

use build_lines::Why;
use go_ast::{Fault, File, Scanned, Seq};
use ident_index::Hit;

/// What was read in a file.
#[derive(Debug, Drop)]
pub struct Parsed {
    /// Its tokens, comments and lines.
    pub scanned: Scanned,
    /// Its package clause and declarations.
    pub file: File,
    /// Its identifiers, in source order.
    pub hits: Seq<Hit>,
}

/// What becomes of a file for a configuration.
#[derive(Debug, Drop)]
pub enum Outcome {
    /// It is skipped.
    Ignored(Why),
    /// It is refused for this fault, the first that applies.
    Faulty(Fault),
    /// It is read.
    Accepted(Parsed),
}
