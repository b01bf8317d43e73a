//! What the three calls report to the caller.

ghost use Rattle.std.specs.Prelude.{◌≡◌};
ghost use Rattle.sgf_lines_c.specs.JudgeAnswer.{reason_number as number_of, verdict_told, no_verdict};

use go_board::Reason;
use sgf_lines::Verdict;

/// What `sgf_lines_split` reports. A number that has no meaning for the status is 0.
#[repr(C)]
#[derive(Clone, Copy)]
pub struct Answer {
    /// After `Done` and `RoomTooSmall`: the number of records, one per line. After `OutOfMemory`: how many there was memory for.
    pub lines: u64,
    /// After `Done` and `RoomTooSmall`: how many bytes the records have.
    pub bytes: u64,
    /// After `NotSgf`: the offset in bytes, from 0, of the first faulty byte. After `EndsEarly`: the length of the text. After
    /// `NoSuchLine`: the place that was asked for.
    pub at: u64,
}

/// What `sgf_lines_count` reports. A number that has no meaning for the status is 0.
#[repr(C)]
#[derive(Clone, Copy)]
pub struct CountAnswer {
    /// The number of games.
    pub games: u64,
    /// The number of their nodes, at every depth.
    pub nodes: u64,
    /// The number of lines of play.
    pub lines: u64,
    /// After `NotSgf`: the offset in bytes, from 0, of the first faulty byte. After `EndsEarly`: the length of the text.
    pub at: u64,
}

/// What `sgf_lines_judge` reports. A number that has no meaning for the status or the verdict is 0.
#[repr(C)]
#[derive(Clone, Copy)]
pub struct JudgeAnswer {
    /// The verdict: 1 for a score, 2 for an illegal node, 3 if the game isn't Go, 4 if the board isn't a square of 1 to 52 points a side.
    pub verdict: u32,
    /// Why the node is illegal: the number of the reason, from 1 in the order of checking.
    pub reason: u32,
    /// Black's area score after the last node, in points.
    pub black: u32,
    /// White's area score after the last node, in points.
    pub white: u32,
    /// The number of turns made before the illegal node, passes included, plus 1.
    pub turn: u64,
    /// The place of the illegal node: the offset in bytes, from 0, of its `;`.
    pub place: u64,
    /// After `NotSgf`: the offset in bytes, from 0, of the first faulty byte. After
    /// `EndsEarly`: the length of the text. After `NoSuchLine`: the place that was asked for.
    pub at: u64,
    /// Whether two passes in a row ended the game. It is false if there is no score.
    pub over: bool,
}

impl JudgeAnswer {
    /// An answer that has only `at`, and no verdict.
    pub(crate) fn at(at: u64) -> JudgeAnswer
        ensures { result ≡ no_verdict at }
    {
        JudgeAnswer {
            verdict: 0,
            reason: 0,
            black: 0,
            white: 0,
            turn: 0,
            place: 0,
            at,
            over: false,
        }
    }

    /// The answer that reports a verdict.
    pub(crate) fn of(verdict: Verdict) -> JudgeAnswer
        ensures { result ≡ verdict_told verdict }
    {
        let mut answer = JudgeAnswer::at(0);
        match verdict {
            Verdict::Score { black, white, over } => {
                answer.verdict = 1;
                answer.black = black;
                answer.white = white;
                answer.over = over;
            }
            Verdict::Illegal {
                turn,
                place,
                reason,
            } => {
                answer.verdict = 2;
                answer.turn = turn;
                answer.place = place;
                answer.reason = reason_number(reason);
            }
            Verdict::NotGo => answer.verdict = 3,
            Verdict::BadSize => answer.verdict = 4,
        }
        answer
    }
}

/// The number that a caller in C gets for a reason.
fn reason_number(reason: Reason) -> u32
    ensures { result ≡ number_of reason }
{
    match reason {
        Reason::Mixed => 1,
        Reason::TwoMoves => 2,
        Reason::BadSetup => 3,
        Reason::BadPoint => 4,
        Reason::Over => 5,
        Reason::Turn => 6,
        Reason::Occupied => 7,
        Reason::Repeat => 8,
    }
}
