//! Jobs.

ghost use Rattle.std.specs.Prelude.{◌≡◌, ℕ, ◌<◌, IfOk};

use plain_data::Mem;
use std::alloc::Global;

/// Jobs that are numbered from 0, each of which any thread may do at any time.
pub trait Job {
    /// What a job gives.
    type Out: Drop;

    // How many jobs there are.
    ghost jobs: { Self → ℕ };

    // Which outputs the job with a number may give.
    ghost gives: { Self → ℕ → Self.Out → Type 0 };

    /// How many jobs there are.
    fn count(&self) -> u32
        ensures { result ≡ jobs self.now };

    /// Does the job with a number below the count, and gives its output.
    ///
    /// # Errors
    ///
    /// `NoMemory` where an allocation is refused.
    fn work(&self, alloc: Global, number: u32) -> Mem<Self::Out>
        requires { number < jobs self.now }
        ensures { IfOk result (λ output. gives self.now number output) };
}
