//! The rule under which editions are published next to readers, and its steps.

use crate::chronicle::Token;
use crate::slot::Slot;
use atomic_table::{Join, Split};
use crossbeam_utils::rule::{Outcome, Protocol};
use std::collections::LinkedList;

/// What a reader has seen and noted. No value of it is made.
pub struct Sight<E> {
    pub seen: Token<E>,
    pub entries: LinkedList<u64>,
    pub looks: LinkedList<u64>,
    /// Whether it has learnt that the opening was published.
    pub opened: bool,
}

/// The rule of the published value and of what each reader has seen.
pub struct PublicationRule;

impl<E> Protocol<Slot<E>, Sight<E>> for PublicationRule {
    ghost use Rattle.publication.specs.Rule.{Holds, blank};

    ghost holds = { Holds };

    ghost first = { blank };
}

/// An entry.
pub struct Enters;

impl<E> Outcome<Slot<E>, Sight<E>> for Enters {
    ghost use Rattle.publication.specs.Rule.{EntersAt};

    ghost then = { EntersAt };
}

/// A look.
pub struct Looks;

impl<E> Outcome<Slot<E>, Sight<E>> for Looks {
    ghost use Rattle.publication.specs.Rule.{LooksAt};

    ghost then = { LooksAt };
}

/// A step by which a reader sees what is published, and notes nothing.
pub struct Glances;

impl<E> Outcome<Slot<E>, Sight<E>> for Glances {
    ghost use Rattle.publication.specs.Rule.{GlancesAt};

    ghost then = { GlancesAt };
}

/// A publication.
pub struct Publishes;

impl<E> Outcome<Slot<E>, Sight<E>> for Publishes {
    ghost use Rattle.std.specs.Prelude.{◌≡◌};

    ghost then = { λ before old new after. after ≡ before };
}

/// The publication of the opening.
pub struct Opens;

impl<E> Outcome<Slot<E>, Sight<E>> for Opens {
    ghost use Rattle.publication.specs.Rule.{OpensAt};

    ghost then = { OpensAt };
}

/// What each reader is told at the opening: that it was published.
pub struct Telling;

impl<E> Split<Sight<E>> for Telling {
    ghost use Rattle.publication.specs.Rule.{told_of};

    ghost left = { λ sight. sight };

    ghost right = { told_of };
}

/// What a reader learns at the opening.
pub struct Learning;

impl<E> Join<Sight<E>> for Learning {
    ghost use Rattle.publication.specs.Rule.{blank};

    ghost both = { λ mine told. told };

    ghost spent = { blank };
}
