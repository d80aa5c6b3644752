//! Plain data that every layer shares: sequences, texts and byte strings, and the failures of calls
//! that run out of memory or reach outside.
//!
//! Contracts see a sequence as its list, and a text and a byte string as their bytes.
//! `specs/Causes.antt` says what a count of faults says of how a call ended.
//!
//! ```
//! let mut names = Seq::new(alloc);
//! names.push(Txt::from_str(alloc, "io")?)?;
//! let mut faults = FaultCount::new();
//! faults.add_one();
//! ```
#![tactic(auto)]

mod counts;
mod errors;
mod sequence;

pub use counts::{FaultCount, NumberedCalls};
pub use errors::{Failed, IoFail, Mem, NoMemory};
pub use sequence::{Bytes, Seq, Txt};
