//! Where bytes come from and where they go: sources, sinks and links between two peers.
//!
//! Each trait has a written meaning, and the forms in memory expose all of it. The adapters of the
//! standard streams expose none of the bytes that pass.
//!
//! ```
//! let mut input = StdSource::new(rt);
//! let mut out = StdSink::new(rt);
//! let count = input.read(&mut piece)?;
//! write_whole(&mut out, &piece[..count])?;
//! ```
#![tactic(auto)]

mod link;
mod memory;
mod sink;
mod source;
mod standard;

pub use link::{Both, Link};
pub use memory::{MemLink, MemSink, MemSource};
pub use sink::{Sink, write_whole};
pub use source::Source;
pub use standard::{StdSink, StdSource};
