//! Editions that one publisher hands to its readers, each of which sees a prefix of one history.
//!
//! A history begins with one edition, and each publication adds one at its end, in one step.
//! Readers enter while the publisher publishes, and wait for nobody. `specs/Rule.antt` has the rule
//! of what is published and seen, on `left_right`; `specs/Chronicle.antt` that of what is handed
//! over and learnt, on `logbook`.
//!
//! ```
//! let (mut publisher, mut readers) = open_editions(rt, alloc, first, 2)?;
//! let number = publisher.publish(rt, next)?;
//! let entered = readers[0].enter()?;
//! // entered.number == number, and entered.edition is `next`
//! ```
#![tactic(auto)]

mod chronicle;
mod knowledge;
mod opening;
mod publisher;
mod reader;
mod rule;
mod slot;

pub use opening::{MAX_READERS, open_editions};
pub use publisher::Publisher;
pub use reader::{EditionReader, Entered, Told};
