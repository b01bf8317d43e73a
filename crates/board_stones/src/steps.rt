//! A count of work.

ghost use Rattle.std.specs.Prelude.{◌≡◌, ◌+◌, ◌<◌, ℕ};

use std::marker::Model;

/// A count of steps. A step of a flood is one point taken off its worklist.
#[derive(Clone, Copy, Debug, PartialEq, Eq)]
pub struct Steps {
    count: u64,
}

impl Model for Steps {
    ghost Value = { ℕ };

    ghost view = { λ s. s.count };

    ghost inverse = { λ count. record { count = count } };
}

impl Steps {
    /// The count 0.
    pub fn new() -> Steps
        ensures { result ≡ 0 }
    {
        Steps { count: 0 }
    }

    /// Adds one step. The count must be less than `u64::MAX`.
    pub fn tick(&mut self)
        requires { self.old < u64.MAX }
        ensures { self.new ≡ self.old + 1 }
    {
        self.count += 1;
    }

    /// The number of steps counted.
    pub fn count(&self) -> u64
        ensures { result ≡ self.now }
    {
        self.count
    }
}
