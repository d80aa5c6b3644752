//! What is known of a history from what was told of it.

ghost use Rattle.std.specs.Prelude.{◌≡◌, ◌⊎◌, true, ◌||◌};
ghost use Rattle.publication.specs.View.{StartsWith};
ghost use Rattle.publication.specs.Readers.{IsTold};

use crate::chronicle::Token;

/// What is known of a history. The tokens have no bytes.
#[derive(Drop)]
pub struct Knowledge<E> {
    /// The history at the opening.
    pub origin: Token<E>,
    /// The longest beginning that was told.
    pub told: Token<E>,
    /// All that is known, which that begins.
    pub all: Token<E>,
    /// The number of editions that were told of.
    pub number: u64,
    /// Whether the history was closed then.
    pub closed: bool,
}

// What two know of one history.
pub(crate) fn joined<E>(mine: &Knowledge<E>, other: &Knowledge<E>) -> Knowledge<E>
    requires mine { IsTold mine.now }
    requires other { IsTold other.now }
    requires same { other.now.origin.book ≡ mine.now.origin.book }
    ensures told { IsTold result }
    ensures origin { result.origin ≡ mine.now.origin }
    ensures one_of { (result.told.log ≡ mine.now.told.log)
        ⊎ (result.told.log ≡ other.now.told.log) }
    ensures mine { StartsWith result.told.log mine.now.told.log }
    ensures other { StartsWith result.told.log other.now.told.log }
    ensures kept { StartsWith result.all.log mine.now.all.log }
    ensures closed { result.closed ≡ (mine.now.closed || other.now.closed) }
    ensures mine_last { mine.now.closed ≡ true → result.told.log ≡ mine.now.told.log }
    ensures other_last { other.now.closed ≡ true → result.told.log ≡ other.now.told.log }
{
    let mut all = mine.all.again();
    all.learn(&other.all);
    let longer = if mine.number < other.number {
        other
    } else {
        mine
    };
    Knowledge {
        origin: mine.origin.again(),
        told: longer.told.again(),
        all,
        number: longer.number,
        closed: mine.closed || other.closed,
    }
}
