//! The search for a name by binary search.

ghost use Rattle.std.specs.Prelude.{◌≡◌, ℕ, ◌≤◌, ◌<◌, ◌-◌, ◌+◌, ◌*◌, ◌^◌, length, AllPairs, All};
ghost use Rattle.std.specs.Prelude.{MatchOption, false};
ghost use Rattle.std.specs.Str.{bytes_eq};
ghost use Rattle.ident_index.specs.Postings.{IsNameBelow};
ghost use Rattle.ident_index.specs.Tables.{IsNamedAt};

use crate::entry::Names;
use crate::steps::Steps;
use std::cmp::Ordering;
use std::sync::ledger::Ledger;

/// The place of a name among sorted names, or `None` where it isn't there. Each name that it looks
/// at is one step.
pub(crate) fn place_of<L: Ledger>(
    names: &Names<L>,
    name: &[u8],
    steps: &mut Steps<L>,
) -> Option<usize>
    requires { AllPairs IsNameBelow names.now }
    ensures found { MatchOption result
        (All (λ e. bytes_eq name.now e.name ≡ false) names.now)
        (IsNamedAt name.now names.now) }
    ensures later { steps.old ≤ steps.new }
    ensures cost { 2 ^ (steps.new - steps.old) ≤ 2 * length names.now + 1 }
{
    let mut low = 0;
    let mut high = names.len();
    while low < high {
        let middle = low + (high - low) / 2;
        match names.compare(middle, name, steps) {
            Ordering::Less => low = middle + 1,
            Ordering::Equal => return Some(middle),
            Ordering::Greater => high = middle,
        }
    }
    None
}
