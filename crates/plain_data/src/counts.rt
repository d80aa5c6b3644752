//! Counts of faults, and calls that are numbered so that some can be made to fail.

ghost use Rattle.std.specs.Prelude.{◌≡◌, ◌≤◌, ◌↔◌, IsTrue};
ghost use Rattle.plain_data.specs.Counts.{NextFails, called, one_more};

use std::marker::Model;

/// How often calls of an object have failed, seen by contracts as that number. At 2^64 - 1 it
/// stands still.
#[derive(Debug, Drop)]
pub struct FaultCount {
    faults: u64,
}

impl Model for FaultCount {
    ghost use Rattle.std.specs.Prelude.{ℕ};

    ghost Value = { ℕ };

    ghost view = { λ count. count.faults };
}

impl FaultCount {
    /// No fault yet.
    pub fn new() -> FaultCount
        ensures { result ≡ 0 }
    {
        FaultCount { faults: 0 }
    }

    /// The number of faults.
    pub fn get(&self) -> u64
        ensures { result ≡ self.now }
    {
        self.faults
    }

    /// Counts one fault more.
    pub fn add_one(&mut self)
        ensures more { self.new ≡ one_more self.old }
        ensures later { self.old ≤ self.new }
    {
        self.faults = self.faults.saturating_add(1);
    }
}

/// The calls of an object in memory, numbered from 1, and the numbers of those that fail. The
/// number stays at 2^64 - 1, and each call there fails.
#[derive(Debug, Drop)]
pub struct NumberedCalls {
    made: u64,
    failing: Vec<u64>,
}

impl Model for NumberedCalls {
    ghost use Rattle.plain_data.specs.Counts.{Numbered};

    ghost Value = { Numbered };

    ghost view = { λ calls. record { made = calls.made; failing = calls.failing.items } };
}

impl NumberedCalls {
    /// No call yet. The numbers of the calls that fail may stand in any order. It takes no memory.
    pub fn new(failing: Vec<u64>) -> NumberedCalls
        ensures { result ≡ record { made = 0; failing = failing.items } }
    {
        NumberedCalls { made: 0, failing }
    }

    /// Counts the next call, and says whether it fails.
    pub fn next_fails(&mut self) -> bool
        ensures fails { IsTrue result ↔ NextFails self.old }
        ensures counted { self.new ≡ called self.old }
    {
        self.made = self.made.saturating_add(1);
        self.made == u64::MAX || self.failing.contains(&self.made)
    }
}
