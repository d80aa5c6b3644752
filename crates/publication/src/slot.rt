//! The published value.

use crate::chronicle::Token;
use left_right::Absorb;
use std::alloc::AllocError;
use std::sync::Arc;

/// An edition with its number, and the log, which ends in it.
#[derive(Drop)]
pub struct Slot<E> {
    pub edition: Arc<E>,
    pub number: u64,
    pub log: Token<E>,
}

/// What the two copies of the published value have in common. No value of it is made.
pub struct Shown<E> {
    pub edition: E,
    pub number: u64,
    pub log: Token<E>,
}

impl<E: Drop> Absorb<Slot<E>> for Slot<E> {
    ghost use Rattle.publication.specs.Slots.{shown};

    type State = Shown<E>;

    ghost state = { shown };

    ghost applied = { λ _ change. shown change };

    fn absorb_first(&mut self, operation: &Slot<E>, _other: &Slot<E>) -> Result<(), AllocError> {
        let edition = Arc::try_clone(&operation.edition)?;
        *self = Slot {
            edition,
            number: operation.number,
            log: operation.log.again(),
        };
        Ok(())
    }

    fn absorb_second(&mut self, operation: Slot<E>, _other: &Slot<E>) -> Result<(), Slot<E>> {
        *self = operation;
        Ok(())
    }
}
