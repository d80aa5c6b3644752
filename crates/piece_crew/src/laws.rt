//! A law of jobs. The function does nothing: its contract is the law.

ghost use Rattle.std.specs.Prelude.{◌≡◌, List, length};
ghost use Rattle.piece_crew.specs.Jobs.{AreInOrder, GivesOne};

use crate::job::Job;

/// Where each job may give one output alone, the outputs are the same for every number of workers
/// and every order of their claims: they are those of one worker.
pub fn outputs_do_not_depend_on_the_workers<J: Job>(_: &J)
    ensures { (all : J) (these those : List J.Out) → GivesOne (J.gives all)
        → length these ≡ J.jobs all → length those ≡ J.jobs all
        → AreInOrder (J.gives all) these → AreInOrder (J.gives all) those → these ≡ those }
{}
