//! The script of a line in gtp form.

ghost use Rattle.std.specs.Prelude.{◌≡◌};
ghost use Rattle.sgf_lines.specs.inner.Scripting.{no_script, script_of, script_text};

use crate::form::pieces::Pieces;
use go_board::{Board, MAX_VERTEX_SIDE};
use itoa::Buffer;
use judged_lines::{Effect, LegalStep, StepKeeper};
use sgf_tree::MemoryFault;
use std::alloc::Global;
use std::marker::Model;

/// The commands of a line's nodes.
#[derive(Drop)]
pub(crate) struct Script {
    /// The commands that begin a game on the board, and then a piece for each legal node. There are none if the line isn't
    /// judged, or if its board has more columns than vertices have letters.
    pieces: Pieces,

    /// The number of pieces before the first setup that leaves a stone without a liberty; of all pieces if no setup does so.
    said: usize,
}

impl Model for Script {
    ghost use Rattle.sgf_lines.specs.inner.Scripting.{ScriptState};

    ghost Value = { ScriptState };

    ghost view = { λ s. record { text = s.pieces; said = s.said } };
}

impl Script {
    /// A script before any line.
    pub(crate) fn new(alloc: Global) -> Script
        ensures { result ≡ no_script }
    {
        Script {
            pieces: Pieces::new(alloc),
            said: 0,
        }
    }

    /// The commands; none if the line can't be written as commands.
    pub(crate) fn text(&self) -> &[u8]
        ensures { result.now ≡ script_text self.now }
    {
        if self.said < self.pieces.count() {
            b""
        } else {
            self.pieces.text()
        }
    }
}

impl StepKeeper for Script {
    ghost tells = { λ script kind taken. script ≡ script_of kind taken };

    fn keep(&mut self, held: usize, board: Option<&Board>) -> Result<(), MemoryFault> {
        if held > 0 {
            self.pieces.cut_back(held + 1);
            self.said = self.said.min(held + 1);
            return Ok(());
        }
        self.pieces.cut_back(0);
        self.said = 0;
        let Some(board) = board else {
            return Ok(());
        };
        let side = board.size().side();
        if side <= MAX_VERTEX_SIDE {
            let mut digits = Buffer::new();
            self.pieces.make_room()?;
            self.pieces.push(b"boardsize ")?;
            self.pieces.push(digits.format(u64::from(side)).as_bytes())?;
            self.pieces.push(b"\nclear_board\n")?;
            self.pieces.close()?;
            self.said = 1;
        }
        Ok(())
    }

    fn say(&mut self, step: LegalStep<'_>, board: &Board) -> Result<(), MemoryFault> {
        let count = self.pieces.count();
        if count == 0 {
            return Ok(());
        }
        self.pieces.push_step(step, board)?;
        self.pieces.close()?;
        // only a setup can leave a stone without a liberty
        let stones = matches!(step.effect, Effect::Stones);
        if self.said == count && !(stones && board.has_unreaching()) {
            self.said = self.pieces.count();
        }
        Ok(())
    }
}
