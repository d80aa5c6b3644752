//! What is known of a file, and the packages that files make up.

use plain_data::{Seq, Txt};

/// What grouping has to know of a file.
#[derive(Debug, Drop)]
pub struct FileFact {
    /// The path of the file, relative to the root and with `/` between its segments.
    pub path: Txt,
    /// The name in its package clause.
    pub name: Txt,
    /// Whether it is a test file.
    pub test: bool,
}

/// The package of one folder. Files are named by their places in the list that was grouped.
#[derive(Debug, Drop)]
pub struct Package {
    /// The path by which it is imported.
    pub path: Txt,
    /// Its folder, empty for the root.
    pub dir: Txt,
    /// Its name.
    pub name: Txt,
    /// Its files that are no test files, in their order.
    pub files: Seq<u32>,
    /// Its test files, in their order.
    pub tests: Seq<u32>,
}

/// The packages that files make up.
#[derive(Debug, Drop)]
pub struct Grouped {
    /// The packages, rising by the bytes of their paths.
    pub packages: Seq<Package>,
    /// The files that stand next to a package of another name, in their order.
    pub others: Seq<u32>,
}
