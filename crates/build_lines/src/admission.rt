//! What is said of a file.

/// Whether a file is read.
#[derive(Clone, Copy, Debug, PartialEq, Eq)]
pub enum Admission {
    /// It is read.
    Admitted,
    /// It is skipped.
    Ignored(Why),
    /// The build line on this line, counted from 1, is malformed, or is a second one.
    BadBuildLine(u32),
}

/// Why a file is skipped.
#[derive(Clone, Copy, Debug, PartialEq, Eq)]
pub enum Why {
    /// Its name names another system or architecture.
    ByName,
    /// The expression of its build line doesn't hold.
    ByLine,
}
