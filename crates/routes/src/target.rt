//! What a request asks for.

use plain_data::Txt;

/// What a request asks for.
#[derive(Debug, Drop)]
pub enum Target {
    /// The list of packages.
    List,
    /// The page of the package with this path.
    PackagePage(Txt),
    /// The page of the source file with this path.
    SourcePage(Txt),
    /// A page of the hits of a search.
    Search {
        /// The name that is searched for: an identifier that is no keyword.
        name: Txt,
        /// The number of the page, from 1 to 999,999.
        page: u32,
    },
    /// The list of the files with faults.
    Faults,
    /// No route leads there.
    NotFound,
    /// The target doesn't begin with `/`, the value of its path isn't UTF-8, or a value of its
    /// query breaks a rule.
    BadTarget,
    /// The method is neither GET nor HEAD.
    BadVerb,
}
