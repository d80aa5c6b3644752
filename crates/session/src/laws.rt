//! Laws of sessions. The functions do nothing: each contract is a law.

ghost use Rattle.std.specs.Prelude.{ℕ, ◌<◌, List, length};
ghost use Rattle.http_wire.specs.declared.request.Request.{Request};
ghost use Rattle.http_wire.specs.Requests.{HasGiven};
ghost use Rattle.session.specs.Pace.{IsPaced, read_limit};

/// Where the reads are paced by `count` requests, less than one read follows the next head: where
/// more than `count` requests are given of the bytes read, fewer than 4,096 bytes remain.
pub fn less_than_one_read_follows_the_next_head()
    ensures { (read : List ℕ) (count : ℕ) (given : List Request) (rest : List ℕ)
        → IsPaced read count → HasGiven read given rest → count < length given
        → length rest < read_limit }
{}
