//! Requests and replies on the wire: HTTP/1.1 (RFC 9110, RFC 9112) in a narrow profile.
//!
//! [`Heads`] cuts a stream of bytes, however it comes, into the heads of requests. [`reply_head`]
//! and [`bad_reply`] write what goes before a page or in its place.
//!
//! ```
//! let mut heads = Heads::new(alloc)?;
//! let taken = heads.feed(piece);
//! match heads.next()? {
//!     Next::Head(request) => ..,
//!     Next::More => .., // feed the next piece
//!     Next::Clean | Next::Bad => ..,
//! }
//! ```
#![tactic(auto)]

mod fields;
mod front;
mod heads;
mod laws;
mod reply;
mod request;

pub use heads::{Heads, MAX_REST_BYTES, Next};
pub use laws::{
    bad_streams_stay_bad, each_stream_has_requests, heads_are_prefix_free, requests_are_unique,
    requests_do_not_depend_on_the_cut,
};
pub use reply::{Code, bad_reply, reply_head};
pub use request::{MAX_FIELDS, MAX_HEAD_BYTES, Request, Verb};
