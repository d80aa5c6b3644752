//! The events that a core takes, and its answers.

/// Something that happens to a core.
#[derive(Clone, Copy, Debug, PartialEq, Eq)]
pub enum Event {
    /// A scan begins: an edition of these sources is to be made, in this many pieces.
    Scan {
        /// What the edition is made of.
        sources: u64,
        /// How many pieces it has.
        pieces: u64,
    },
    /// A worker finished a piece of the scan under way.
    Piece {
        /// Who finished it.
        worker: u32,
        /// Which piece it is, counted from 0.
        index: u64,
    },
    /// The edition of the scan under way is published, and the scan ends.
    Publish,
    /// A connection enters for a request.
    Enter {
        /// Who enters.
        connection: u32,
        /// What for.
        request: u64,
    },
}

/// What a core answers to an event.
#[derive(Clone, Copy, Debug, PartialEq, Eq)]
pub enum Answer {
    /// A scan began, or a piece is finished.
    Done,
    /// An edition is published under this number. That of the opening has the number 1.
    Published(u64),
    /// A request is served.
    Served {
        /// The number of the edition, which is the newest.
        edition: u64,
        /// What that edition is made of.
        sources: u64,
        /// The request that entered.
        request: u64,
    },
    /// The event may not happen now. Nothing changed.
    Illegal(NotLegal),
}

/// Why an event may not happen.
#[derive(Clone, Copy, Debug, PartialEq, Eq)]
pub enum NotLegal {
    /// A scan begins while another is under way.
    ScanUnderWay,
    /// A piece or a publication comes while no scan is under way.
    NoScan,
    /// The scan under way has no such piece.
    UnknownPiece,
    /// The piece is finished already.
    PieceTwice,
    /// A publication comes while a piece is missing.
    Unfinished,
}
