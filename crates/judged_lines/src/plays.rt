//! The number of nodes that were played.

ghost use Rattle.std.specs.Prelude.{◌≡◌, ◌≤◌, ◌+◌};

use std::marker::Model;

/// The number of nodes that runs have played. A node is played when its step is worked out, whatever it holds.
#[derive(Drop)]
pub struct Plays {
    count: u64,
}

impl Model for Plays {
    ghost use Rattle.std.specs.Prelude.{ℕ};
    ghost use Rattle.std.specs.Coded.{coded_ℕ};

    ghost Value = { ℕ };

    ghost coded = { coded_ℕ };

    ghost view = { λ s. s.count };
}

impl Plays {
    /// The number 0.
    pub fn new() -> Plays
        ensures { result ≡ 0 }
    {
        Plays { count: 0 }
    }

    /// The number of nodes that were played.
    pub fn count(&self) -> u64
        ensures { result ≡ self.now }
    {
        self.count
    }

    /// Adds this many played nodes.
    pub fn add(&mut self, count: u64)
        requires { self.old + count ≤ u64.MAX }
        ensures { self.new ≡ self.old + count }
    {
        self.count += count;
    }
}
