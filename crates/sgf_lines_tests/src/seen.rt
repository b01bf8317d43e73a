//! Counts calls, and keeps what was wrong.
//!
//! Some calls are there because they need more room than is taken at first. They have a name, which is printed if memory was refused to one
//! of them. So `tests/failing_calls.sh` can tell that they still ask for memory.

use std::fmt;

/// How many calls were made, how many of them were refused memory, and what was wrong first.
#[derive(Drop)]
pub struct Seen {
    calls: u32,
    wants: u32,
    /// The name of the calls that are made now; empty if they have none.
    growth: &'static str,
    /// The name of the calls of which one was refused memory last.
    wanted_in: &'static str,
    wrong: Option<&'static str>,
}

impl Seen {
    /// Before the first call.
    pub fn new() -> Seen {
        Seen {
            calls: 0,
            wants: 0,
            growth: "",
            wanted_in: "",
            wrong: None,
        }
    }

    /// The calls that follow need more room than is taken at first, and this is their name. If it is empty, they have none.
    pub fn growth(&mut self, name: &'static str) {
        self.growth = name;
    }

    /// Counts a call.
    pub fn call(&mut self) {
        self.calls = self.calls.saturating_add(1);
    }

    /// Counts a call to which memory was refused.
    pub fn want(&mut self) {
        self.wants = self.wants.saturating_add(1);
        self.wanted_in = self.growth;
    }

    /// If `holds` is false, keeps `what` as wrong.
    pub fn right(&mut self, holds: bool, what: &'static str) {
        if !holds {
            self.wrong(what);
        }
    }

    /// Keeps `what` as wrong, if nothing was wrong before.
    pub fn wrong(&mut self, what: &'static str) {
        if self.wrong.is_none() {
            self.wrong = Some(what);
        }
    }

    /// The first thing that was wrong, if there is one.
    pub fn first_wrong(&self) -> Option<&'static str> {
        self.wrong
    }

    /// The exit status if nothing was wrong: 4 if memory was refused to some call, else 0.
    pub fn status(&self) -> u8 {
        if self.wants == 0 { 0 } else { 4 }
    }
}

impl fmt::Display for Seen {
    fn fmt<W: fmt::Write>(&self, f: &mut fmt::Formatter<W>) -> fmt::Result {
        write!(f, "{} calls, {} wants of memory", self.calls, self.wants)?;
        if self.wanted_in.is_empty() {
            return Ok(());
        }
        write!(f, " by {}", self.wanted_in)
    }
}
