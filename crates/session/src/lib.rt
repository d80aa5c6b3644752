//! One connection: its requests are read, and each is answered by the edition that stood when it
//! was entered (RFC 9112, "Persistence").
//!
//! [`serve_link`] knows neither what an edition is nor what a reply says: a [`Responder`] makes the
//! replies. `specs/Text.antt` says what the text of a connection is, `specs/Pace.antt` how far it
//! reads ahead, and `specs/Session.antt` what a session did.
//!
//! ```
//! match serve_link(alloc, &mut link, &mut reader, &site) {
//!     SessionEnd::Closed | SessionEnd::Refused | SessionEnd::Full => ..,
//!     SessionEnd::ReadFault | SessionEnd::WriteFault | SessionEnd::NoMemory => ..,
//! }
//! ```
#![tactic(auto)]

mod incoming;
mod laws;
mod responder;
mod serve;
mod session_end;

pub use laws::less_than_one_read_follows_the_next_head;
pub use responder::Responder;
pub use serve::serve_link;
pub use session_end::SessionEnd;
