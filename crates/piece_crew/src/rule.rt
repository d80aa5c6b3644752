//! The rule of a claim word, and what the steps at it tell.

use atomic_table::{Join, Play, Split, TableRule};
use std::collections::LinkedList;

/// The most numbers that there are to claim at one word: as many as a `u32` counts.
pub const MAX_TOTAL: u64 = 4_294_967_295;

/// The most workers, and the most seats at one word.
pub const MAX_WORKERS: u32 = 64;

/// What a claim word is made with: how many numbers there are, and how many seats.
#[derive(Drop)]
pub struct Terms {
    pub total: u64,
    pub seats: u64,
}

/// What is known at a seat, or at several that were joined. No value of it is made.
pub struct View {
    /// How many numbers there are to claim.
    pub total: u64,
    /// How many seats were made.
    pub made: u64,
    /// How many of them this view stands for.
    pub seats: u64,
    /// The numbers that steps found below the total.
    pub claimed: LinkedList<u64>,
    /// The numbers that steps found at the total or past it.
    pub past: LinkedList<u64>,
}

/// The rule of the claim word.
pub struct ClaimRule;

impl TableRule<(), View, Terms> for ClaimRule {
    ghost use Rattle.piece_crew.specs.Rule.{Keeps, opened};

    ghost holds = { Keeps };

    ghost first = { opened };
}

/// One is added to the word.
pub struct Drawing;

impl Play<(), View> for Drawing {
    ghost use Rattle.piece_crew.specs.Rule.{Draws};

    ghost then = { Draws };
}

/// The word is read.
pub struct Reading;

impl Play<(), View> for Reading {
    ghost use Rattle.piece_crew.specs.Rule.{Reads};

    ghost then = { Reads };
}

/// One seat leaves a view, and the seats of two views come together.
pub struct Parting;

impl Split<View> for Parting {
    ghost use Rattle.piece_crew.specs.Rule.{left, right};

    ghost left = { left };

    ghost right = { right };
}

impl Join<View> for Parting {
    ghost use Rattle.piece_crew.specs.Rule.{joined, spent};

    ghost both = { joined };

    ghost spent = { spent };
}
