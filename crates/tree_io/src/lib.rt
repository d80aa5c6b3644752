//! Trees of Go files: what a tree is, one in memory, and one in a real folder.
//!
//! A [`Tree`] is scanned by opening a scan, listing its paths and reading them. Its contracts speak
//! of the contents of the scans opened so far, where a tree exposes them, and of two counts of
//! faults.
//!
//! ```
//! tree.open_scan()?;
//! for path in tree.list(alloc)?.as_slice() {
//!     let entry = read_entry(alloc, &mut tree, path.as_str())?;
//! }
//! ```
#![tactic(auto)]

mod entries;
mod file;
mod files;
mod folder;
mod memory;
mod names;
mod path;
mod place;
mod tree;
mod walk;

pub use entries::read_entry;
pub use file::read_entry_from;
pub use folder::FsTree;
pub use memory::MemTree;
pub use names::names_that_lead;
pub use path::{MAX_PATH_BYTES, belongs};
pub use place::{full_path, join};
pub use tree::{Entry, MAX_FILE_BYTES, Tree};
pub use walk::{MAX_ENTRIES, Walk, is_folder, may_lead, visit_all, visit_named};
