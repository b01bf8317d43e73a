//! A referee's turns. The past plays the stones (`Past::play_at_once`, else `Past::play`), and doesn't play one that would repeat a
//! colouring made since the last setup of stones (positional superko).

ghost use Rattle.std.specs.Prelude.{◌≡◌, ◌≢◌, ◌↔◌, None, Some, IfNone, IfSome, IsErrOf, IsFalse, IsTrue, OnOk, OnErr};
ghost use Rattle.go_board.specs.declared.reason.Reason.{Reason};
ghost use Rattle.go_board.specs.declared.referee.plays.Play.TheVariants.{Pass};
ghost use Rattle.go_board.specs.State.{IsPlayOn, followed_by, turned};
ghost use Rattle.go_board.specs.Reason.{reason_of};
ghost use Rattle.go_board.specs.inner.Earlier.{MayOnlyRepeat};

use crate::fault::TurnFault;
use crate::reason::Reason;
use crate::referee::{Call, Earlier, Mover, Play, Referee};
use board_past::{MemoryFault, Past};
use board_stones::{Cell, Colour};

impl<P: Past> Referee<P> {
    /// Takes a player's turn (Tromp-Taylor). A stone's point must be on the board. After a refusal nothing is changed.
    ///
    /// - `Illegal`: the first of `Over`, `Turn`, `Occupied` and `Repeat` that holds. This refusal comes even if memory is refused.
    /// - `Memory`: the turn is legal, but memory was refused.
    // Inlined, so that its answer needs no memory. A run calls it in one place.
    #[inline(always)]
    pub fn turn(&mut self, colour: Colour, play: Play) -> Result<(), TurnFault>
        requires { IsPlayOn self.old.present.colouring.side play }
        ensures illegal { (r : Reason) → (IsErrOf result (TurnFault.Illegal r) ↔ (reason_of self.old.present colour play ≡ Some r)) }
        ensures ok { OnOk result (self.new ≡ followed_by self.old (turned self.old.present colour play)) }
        ensures err { OnErr result (self.new ≡ self.old) }
    {
        if !self.play_at_once(colour, play) {
            return self.turn_in_full(colour, play);
        }
        Ok(())
    }

    /// The same as `turn`, for every turn.
    #[inline(never)]
    fn turn_in_full(&mut self, colour: Colour, play: Play) -> Result<(), TurnFault>
        requires { IsPlayOn self.old.present.colouring.side play }
        ensures illegal { (r : Reason) → (IsErrOf result (TurnFault.Illegal r) ↔ (reason_of self.old.present colour play ≡ Some r)) }
        ensures ok { OnOk result (self.new ≡ followed_by self.old (turned self.old.present colour play)) }
        ensures err { OnErr result (self.new ≡ self.old) }
    {
        if let Some(reason) = self.reason_before_repeat(colour, play) {
            return Err(TurnFault::Illegal(reason));
        }
        let Play::Stone(point) = play else {
            return Ok(self.play_pass(colour)?);
        };
        if !self.past.play(colour, point)? {
            return Err(TurnFault::Illegal(Reason::Repeat));
        }
        let (mover, call) = (self.mover, Call::Stone);
        if self.earlier.push(Earlier { mover, call }).is_err() {
            self.past.pop();
            return Err(TurnFault::Memory);
        }
        self.mover = Mover::after(0, colour.opponent());
        self.turns += 1;
        Ok(())
    }

    /// The first reason, except `Repeat`, why a turn is illegal.
    fn reason_before_repeat(&self, colour: Colour, play: Play) -> Option<Reason>
        requires { IsPlayOn self.now.present.colouring.side play }
        ensures known { IfSome result (λ reason. reason_of self.now.present colour play ≡ Some reason) }
        ensures only_repeat { IfNone result (MayOnlyRepeat self.now.present colour play) }
    {
        if !self.mover.may_play(colour) {
            let over = self.over();
            return Some(if over { Reason::Over } else { Reason::Turn });
        }
        match play {
            Play::Stone(point) if self.board().at(point) != Cell::Empty => Some(Reason::Occupied),
            _ => None,
        }
    }

    /// Takes a turn with a stone, if the past can play it at once (`Past::play_at_once`) and there is room. Returns whether it was taken.
    /// False says nothing, and then nothing is changed. Most turns are taken here.
    // Not inlined: there is one copy of it, and what it calls is inlined there.
    #[inline(never)]
    fn play_at_once(&mut self, colour: Colour, play: Play) -> bool
        requires { IsPlayOn self.old.present.colouring.side play }
        ensures legal { IsTrue result → reason_of self.old.present colour play ≡ None }
        ensures taken { IsTrue result → self.new ≡ followed_by self.old (turned self.old.present colour play) }
        ensures unchanged { IsFalse result → self.new ≡ self.old }
    {
        let Play::Stone(point) = play else {
            return false;
        };
        if let Some(_reason) = self.reason_before_repeat(colour, play) {
            return false;
        }
        if self.earlier.len() >= self.earlier.capacity() {
            return false;
        }
        if !self.past.play_at_once(colour, point) {
            return false;
        }
        let (mover, call) = (self.mover, Call::Stone);
        self.earlier.push_reserved(Earlier { mover, call });
        self.mover = Mover::after(0, colour.opponent());
        self.turns += 1;
        true
    }

    /// Takes a pass. Two passes in a row end the game (`over`).
    fn play_pass(&mut self, colour: Colour) -> Result<(), MemoryFault>
        requires { self.old.present.passes ≢ 2 }
        ensures ok { OnOk result (self.new ≡ followed_by self.old (turned self.old.present colour Pass)) }
        ensures err { OnErr result (self.new ≡ self.old) }
    {
        let (mover, call) = (self.mover, Call::Pass);
        self.earlier.push(Earlier { mover, call })?;
        self.mover = Mover::after(mover.passes() + 1, colour.opponent());
        self.turns += 1;
        Ok(())
    }
}
