//! The referee: the Tromp-Taylor rules over a past, with undo. Each accepted call keeps the player and the passes from before the
//! call, and which call it was (`Earlier`). `undo` restores these. If the call added a colouring to the past, `undo` removes it.

ghost use Rattle.std.specs.Prelude.{Some, reverse, ◌≡◌, ◌<◌, ◌≤◌, ◌∷◌, ◌==◌, ◌&&◌, not, length, IsTrue, IfOk, OnOk, OnErr};
ghost use Rattle.board_stones.specs.declared.stones.Colour.TheVariants.{Black, White};
ghost use Rattle.go_board.specs.State.{States, HadSameBoard, HadSameBoardSince, HaveBegun, begun, followed_by, is_over};
ghost use Rattle.go_board.specs.Reason.{must_move};
ghost use Rattle.board_stones.specs.Colour.{opponent};
ghost use Rattle.board_stones.specs.Score.{score_of};
ghost use Rattle.go_board.specs.inner.Earlier.{grew, player_of, passes_of, states_of, IsRefereeKept};

mod plays;
mod setup;
mod turn;

use board_past::{MemoryFault, Past};
use board_points::Size;
use board_stones::{Board, Colour};
pub use plays::Play;
use std::alloc::Global;
use std::marker::Model;

/// The number of earlier states that a new referee has room for.
const FIRST_STATES: usize = 256;

/// A referee of one game. It is seen as the list of the states that the game was in: the present one, and before it one for each
/// accepted call that wasn't taken back. Such a call is a setup, a turn or a stay. A refused call changes nothing.
#[derive(Drop)]
pub struct Referee<P: Past> {
    past: P,
    mover: Mover,
    turns: u64,
    /// One for each accepted call that wasn't taken back, oldest first.
    earlier: Vec<Earlier>,
}

/// What is kept of the state before an accepted call, besides the past, in 2 bytes.
#[derive(Clone, Copy)]
struct Earlier {
    mover: Mover,
    call: Call,
}

/// An accepted call, by what it changes besides the player and the passes.
#[derive(Clone, Copy)]
enum Call {
    /// A stay, or a setup of the player alone.
    Stay,
    Pass,
    Stone,
    /// A setup of stones.
    Setup,
}

impl Call {
    /// Whether the call added a colouring to the past.
    fn grew(self) -> bool
        ensures { result ≡ grew self }
    {
        match self {
            Call::Stay | Call::Pass => false,
            Call::Stone | Call::Setup => true,
        }
    }
}

/// Who must move, and how many passes in a row were made last: one byte, which a turn tests, copies and writes as a whole.
#[derive(Clone, Copy)]
enum Mover {
    Black,
    White,
    BlackAfterPass,
    WhiteAfterPass,
    /// Two passes ended the game. Who would have to move is kept all the same.
    BlackAfterTwoPasses,
    WhiteAfterTwoPasses,
    /// Either player may move, after a setup of stones without PL.
    Either,
}

impl Mover {
    /// That player, after so many passes in a row.
    fn after(passes: u8, player: Colour) -> Mover
        requires { passes ≤ 2 }
        ensures player { player_of result ≡ Some player }
        ensures passes { passes_of result ≡ passes }
    {
        match (passes, player) {
            (0, Colour::Black) => Mover::Black,
            (0, Colour::White) => Mover::White,
            (1, Colour::Black) => Mover::BlackAfterPass,
            (1, Colour::White) => Mover::WhiteAfterPass,
            (_, Colour::Black) => Mover::BlackAfterTwoPasses,
            (_, Colour::White) => Mover::WhiteAfterTwoPasses,
        }
    }

    /// How many passes in a row were made last.
    fn passes(self) -> u8
        ensures value { result ≡ passes_of self }
        ensures at_most { result ≤ 2 }
    {
        match self {
            Mover::Black | Mover::White | Mover::Either => 0,
            Mover::BlackAfterPass | Mover::WhiteAfterPass => 1,
            Mover::BlackAfterTwoPasses | Mover::WhiteAfterTwoPasses => 2,
        }
    }

    /// Whether that player may take a turn: the game isn't over, and the opponent doesn't have to move.
    fn may_play(self, player: Colour) -> bool
        ensures { result ≡ not (passes_of self == 2) && not (must_move (player_of self) (opponent player)) }
    {
        // Most turns are by the player who must move, after no pass. One comparison tells, since both enums number Black and White alike.
        if self as u8 == player as u8 {
            return true;
        }
        match player {
            Colour::Black => matches!(self, Mover::BlackAfterPass | Mover::Either),
            Colour::White => matches!(self, Mover::WhiteAfterPass | Mover::Either),
        }
    }
}

impl<P: Past> Model for Referee<P> {
    ghost Value = { States };

    ghost view = { λ r. states_of (P.held r.past) r.mover r.turns r.earlier.items };

    ghost invariant = { λ r. IsRefereeKept (P.held r.past) r.mover r.turns (reverse r.earlier.items) };
}

impl<P: Past> Referee<P> {
    /// A referee at the beginning of a game: the board is empty, and Black must move. `MemoryFault` comes only if memory was refused.
    pub fn new(alloc: Global, size: Size) -> Result<Referee<P>, MemoryFault>
        ensures { IfOk result (λ referee. referee ≡ begun size) }
    {
        Ok(Referee {
            past: P::new(alloc, &Board::empty(size))?,
            mover: Mover::Black,
            turns: 0,
            earlier: Vec::with_capacity(alloc, FIRST_STATES)?,
        })
    }

    /// Begins another game. The referee is then like a new one of that size, whatever its size was before. If the past can begin anew in
    /// place, as a `PrintPast` can, this takes no memory, and less time than a new referee. `MemoryFault` comes only if memory was refused;
    /// then nothing is changed.
    pub fn reset(&mut self, size: Size) -> Result<(), MemoryFault>
        ensures ok { OnOk result (self.new ≡ begun size) }
        ensures err { OnErr result (self.new ≡ self.old) }
    {
        self.past
            .reset(*self.earlier.allocator(), &Board::empty(size))?;
        self.mover = Mover::Black;
        self.turns = 0;
        self.earlier.clear();
        Ok(())
    }

    /// The number of accepted calls (setups, turns and stays) that aren't taken back. The oldest state is the beginning of a game.
    pub fn depth(&self) -> usize
        ensures value { result ≡ length self.now.earlier }
        ensures begun { HaveBegun self.now }
    {
        self.earlier.len()
    }

    /// Adds a state equal to the present one, so that each node of a line can have a state of its own. `undo` takes it back.
    /// `MemoryFault` comes only if memory was refused; then nothing is changed.
    pub fn stay(&mut self) -> Result<(), MemoryFault>
        ensures ok { OnOk result (self.new ≡ followed_by self.old self.old.present) }
        ensures err { OnErr result (self.new ≡ self.old) }
    {
        let (mover, call) = (self.mover, Call::Stay);
        Ok(self.earlier.push(Earlier { mover, call })?)
    }

    /// Takes back the newest accepted call: the whole state before it is there again. There must be one, so `depth` must be at least 1.
    pub fn undo(&mut self)
        requires { 0 < length self.old.earlier }
        ensures value { self.old.earlier ≡ self.new.present ∷ self.new.earlier }
        ensures side { self.new.present.colouring.side ≡ self.old.present.colouring.side }
    {
        let earlier = self.earlier.pop().unwrap();
        self.mover = earlier.mover;
        self.turns -= u64::from(matches!(earlier.call, Call::Pass | Call::Stone));
        if earlier.call.grew() {
            self.past.pop();
        }
    }

    /// Whether the newest accepted call left the board as it was: a stay, a pass, or a setup of the player alone. False says nothing.
    /// There must be such a call, so `depth` must be at least 1.
    #[inline(always)]
    pub fn newest_left_board(&self) -> bool
        requires { 0 < length self.now.earlier }
        ensures { IsTrue result → HadSameBoard self.now }
    {
        !self.earlier.last().unwrap().call.grew()
    }

    /// Whether each accepted call after the first `depth` calls left the board as it was. False says nothing. If there are no such calls,
    /// this is true. It looks at the newest calls first, and no further than at a stone or a setup of stones.
    pub fn left_board_since(&self, depth: usize) -> bool
        ensures { IsTrue result → HadSameBoardSince self.now depth }
    {
        let mut count = self.earlier.len();
        'calls: while depth < count {
            if self.earlier[count - 1].call.grew() {
                return false;
            }
            count -= 1;
        }
        true
    }

    /// The present board.
    pub fn board(&self) -> &Board
        ensures { result.now ≡ self.now.present.colouring }
    {
        self.past.newest()
    }

    /// The number of turns made, passes included.
    pub fn turns(&self) -> u64
        ensures value { result ≡ self.now.present.turns }
        ensures at_most { result ≤ length self.now.earlier }
        ensures countable { result < u64.MAX }
    {
        self.turns
    }

    /// Whether the game is over: two passes in a row end it (`play_pass` counts them).
    pub fn over(&self) -> bool
        ensures value { result ≡ is_over self.now.present }
        ensures at_most { self.now.present.passes ≤ 2 }
    {
        self.mover.passes() == 2
    }

    /// The area scores of Black and of White on the present board, in points (Tromp-Taylor).
    pub fn score(&self) -> (u32, u32)
        ensures black { result.0 ≡ score_of self.now.present.colouring Black }
        ensures white { result.1 ≡ score_of self.now.present.colouring White }
    {
        self.past.newest().score()
    }
}
