//! Laws of the requests in a stream. The functions do nothing: each contract is a law.

ghost use Rattle.std.specs.Prelude.{◌≡◌, ℕ, Bool, false, List, [], ◌++◌};
ghost use Rattle.http_wire.specs.declared.request.Request.{Request};
ghost use Rattle.http_wire.specs.Requests.{IsHead, HasGiven, Requests, StreamEnd, Bad};

/// No head has a proper prefix that is a head.
pub fn heads_are_prefix_free()
    ensures { (text more : List ℕ) → IsHead text → IsHead (text ++ more) → more ≡ [] }
{}

/// No stream is without a list of requests and an end. The double negation stays, since no
/// definition decides whether a rest can become a head.
pub fn each_stream_has_requests()
    ensures { (stream : List ℕ) (ended : Bool)
        → ¬ ((requests : List Request) (end : StreamEnd) → ¬ (Requests stream ended requests end)) }
{}

/// A stream has at most one list of requests, and one end.
pub fn requests_are_unique()
    ensures { (stream : List ℕ) (ended : Bool) (these those : List Request) (end other : StreamEnd)
        → Requests stream ended these end → Requests stream ended those other
        → (these ≡ those) × (end ≡ other) }
{}

/// A stream is refused for good: neither more bytes nor the end of the input change that.
pub fn bad_streams_stay_bad()
    ensures { (stream more : List ℕ) (ended : Bool) (requests : List Request)
        → Requests stream false requests Bad → Requests (stream ++ more) ended requests Bad }
{}

/// The requests are the same however the stream is cut. What was given stays given when more is
/// fed, and with the requests in the rest it makes the requests in the whole stream.
pub fn requests_do_not_depend_on_the_cut()
    ensures more { (fed more rest : List ℕ) (given : List Request)
        → HasGiven fed given rest → HasGiven (fed ++ more) given (rest ++ more) }
    ensures whole { (fed rest : List ℕ) (ended : Bool) (given requests : List Request)
        (end : StreamEnd) → HasGiven fed given rest → Requests rest ended requests end
        → Requests fed ended (given ++ requests) end }
{}
