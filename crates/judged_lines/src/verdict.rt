//! The verdict of a line.

use go_board::Reason;

/// What a referee says of a line of play, by the Tromp-Taylor rules.
#[derive(Clone, Copy, Debug, PartialEq, Eq)]
pub enum Verdict {
    /// Every node is legal.
    Score {
        /// Black's area score after the last node, in points.
        black: u32,
        /// White's area score after the last node, in points.
        white: u32,
        /// Whether two passes in a row ended the game.
        over: bool,
    },
    /// Some node is illegal. The nodes after the first such node aren't looked at.
    Illegal {
        /// The number of turns made before that node, passes included, plus 1.
        turn: u64,
        /// The place of that node: the offset in bytes, from 0, of its `;` in the text.
        place: u64,
        /// The first reason that holds.
        reason: Reason,
    },
    /// The line isn't judged: its game isn't Go (SGF FF[4], GM).
    NotGo,
    /// The line isn't judged: its board isn't a square of 1 to 52 points a side (SGF FF[4], SZ).
    BadSize,
}
