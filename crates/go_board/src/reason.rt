//! Why a node or a turn is illegal.

ghost use Rattle.std.specs.Prelude.{◌≡◌, Some};
ghost use Rattle.go_board.specs.Reason.{word_of};

use std::fmt;

/// Why a turn or a node is illegal, in the order of checking (this project's choice). A referee returns only the last four.
/// The others are faults of a node, found before a referee is asked.
#[derive(Clone, Copy, Debug, PartialEq, Eq)]
pub enum Reason {
    /// The node has moves, and also setup stones or a player.
    Mixed,
    /// The node has two moves or more.
    TwoMoves,
    /// A value of AB, AW or AE names no rectangle of the board, or a value of PL isn't `B` or `W`.
    BadSetup,
    /// The move is neither a pass nor a point of the board.
    BadPoint,
    /// The game is over: there were two passes in a row, and no setup of stones since.
    Over,
    /// The other player must move.
    Turn,
    /// The point isn't empty.
    Occupied,
    /// The stone would repeat a colouring made since the last setup of stones (positional superko).
    Repeat,
}

impl Reason {
    /// The word that is written for the reason, as in records of the list form.
    pub fn word(self) -> &'static str
        ensures { result.now ≡ word_of self }
    {
        match self {
            Reason::Mixed => "mixed",
            Reason::TwoMoves => "two-moves",
            Reason::BadSetup => "bad-setup",
            Reason::BadPoint => "bad-point",
            Reason::Over => "over",
            Reason::Turn => "turn",
            Reason::Occupied => "occupied",
            Reason::Repeat => "repeat",
        }
    }
}

impl fmt::Display for Reason {
    ghost output = { λ reason. Some (word_of reason) };

    fn fmt<W: fmt::Write>(&self, f: &mut fmt::Formatter<W>) -> fmt::Result {
        f.write_str(self.word())
    }
}
