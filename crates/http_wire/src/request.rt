//! What the head of a request asks for.

use plain_data::Txt;

/// The most bytes of a head, with the empty lines before it.
pub const MAX_HEAD_BYTES: usize = 8_192;

/// The most fields of a head.
pub const MAX_FIELDS: usize = 64;

/// The method of a request (RFC 9110, section 9), as far as replies depend on it.
#[derive(Clone, Copy, Debug, PartialEq, Eq)]
pub enum Verb {
    /// `GET`.
    Get,
    /// `HEAD`.
    Head,
    /// Any other method.
    Other,
}

/// A request, as its head gives it.
#[derive(Debug, Drop)]
pub struct Request {
    /// The method.
    pub verb: Verb,
    /// The request target as it stands in the request line (RFC 9112, section 3.2).
    pub target: Txt,
    /// Whether the connection closes after the reply: the version is 1.0, or a Connection field
    /// names the option `close` (RFC 9112, section 9.3).
    pub close: bool,
}
