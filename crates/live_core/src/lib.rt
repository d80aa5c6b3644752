//! The core of a server whose editions are published while they are read: a machine that answers
//! events.
//!
//! An edition is made in pieces, in any order and by any worker, and is published when its last
//! piece is finished. Whoever enters is served the newest published edition.
//!
//! ```
//! let mut core = Core::start(alloc, sources)?;
//! match core.step(&event)? {
//!     Answer::Published(edition) => ..,
//!     Answer::Illegal(why) => .., // nothing changed
//! }
//! ```
#![tactic(auto)]

mod draft;
mod event;
mod laws;
mod machine;

pub use event::{Answer, Event, NotLegal};
pub use laws::{connections_never_go_back, trails_are_legal};
pub use machine::{Core, run_events};
