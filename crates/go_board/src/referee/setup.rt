//! A referee's setups.

ghost use Rattle.std.specs.Prelude.{◌≡◌, ◌<◌, ◌⊎◌, All, IsSome, OnOk, OnErr, length};
ghost use Rattle.board_points.specs.Point.{IsRectOn};
ghost use Rattle.go_board.specs.State.{followed_by, set_up};

use crate::referee::{Call, Earlier, Mover, Referee};
use board_past::{MemoryFault, Past};
use board_stones::{Colour, SetupOp};

impl<P: Past> Referee<P> {
    /// Sets up stones (AB, AW, AE) or the player (PL; SGF FF[4]). `MemoryFault` comes only if memory was refused; then nothing is changed.
    ///
    /// - With operations: these colour their rectangles in order, whatever stood there, and nothing is cleared. A new stretch begins,
    ///   so a ko doesn't reach back over the setup. Passes are 0. The player of PL must move; without PL (None) either may.
    /// - Without operations: only the player changes, to that of PL. In this case there must be one.
    pub fn setup(&mut self, ops: &[SetupOp], player: Option<Colour>) -> Result<(), MemoryFault>
        requires areas { All (λ op. IsRectOn self.old.present.colouring.side op.area) ops.now }
        requires something { (0 < length ops.now) ⊎ IsSome player }
        ensures ok { OnOk result (self.new ≡ followed_by self.old (set_up self.old.present ops.now player)) }
        ensures err { OnErr result (self.new ≡ self.old) }
    {
        if ops.is_empty() {
            let (mover, call) = (self.mover, Call::Stay);
            self.earlier.push(Earlier { mover, call })?;
            self.mover = Mover::after(mover.passes(), player.unwrap());
            return Ok(());
        }
        self.earlier.reserve(1)?;
        self.past.set_up(ops)?;
        let (mover, call) = (self.mover, Call::Setup);
        self.earlier.push(Earlier { mover, call }).unwrap();
        self.mover = match player {
            None => Mover::Either,
            Some(player) => Mover::after(0, player),
        };
        Ok(())
    }
}
