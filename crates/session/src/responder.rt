//! What answers requests.

ghost use Rattle.std.specs.Prelude.{◌≡◌, ℕ, Bool, List, IfOk};
ghost use Rattle.http_wire.specs.declared.request.Request.{Request};

use http_wire::Request;
use plain_data::Mem;
use std::alloc::Global;

/// What makes the reply to a request of one edition.
pub trait Responder<E> {
    /// The bytes of a reply: by the number of an edition, the edition, the request, and whether the
    /// connection closes after the reply.
    ghost reply_of: { Self → ℕ → E → Request → Bool → List ℕ };

    /// Makes the whole reply to a request, of an edition with its number, counted from 1. `last`
    /// says whether the connection closes after it.
    ///
    /// # Errors
    ///
    /// `NoMemory` where an allocation is refused.
    fn reply(
        &self,
        alloc: Global,
        number: u64,
        edition: &E,
        request: &Request,
        last: bool,
    ) -> Mem<Vec<u8>>
        ensures { IfOk result
            (λ bytes. bytes.items ≡ reply_of self.now number edition.now request.now last) };
}
