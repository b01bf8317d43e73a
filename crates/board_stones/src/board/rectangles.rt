//! Colouring rectangles of a board, and emptying sets of its points.

ghost use Rattle.std.specs.Prelude.{◌≡◌, ◌≤◌, IsTrue, length, All, fold};
ghost use Rattle.board_points.specs.declared.points.Point.{Point};
ghost use Rattle.board_points.specs.Point.{IsOn, IsRectOn};
ghost use Rattle.board_stones.specs.Move.{IsWithout};
ghost use Rattle.board_points.specs.Rows.{is_set};
ghost use Rattle.board_stones.specs.Rectangle.{with_rectangle};

use crate::board::Board;
use crate::setup_op::SetupOp;
use crate::stones::Cell;
use board_points::columns::columns_between;

impl Board {
    /// Colours rectangles in order, whatever stood there. Nothing is cleared.
    pub fn colour_rectangles(&mut self, ops: &[SetupOp])
        requires { All (λ op. IsRectOn self.old.side op.area) ops.now }
        ensures value { self.new ≡ fold with_rectangle self.old ops.now }
        ensures side { self.new.side ≡ self.old.side }
    {
        let before = self.copy();
        for op in ops {
            self.colour_rectangle(*op);
        }
        // if no point changed, what was known of the stones still holds
        if self.same(&before) {
            self.set_settled(before.is_settled());
        }
    }

    /// Colours the points of a rectangle row by row.
    fn colour_rectangle(&mut self, op: SetupOp)
        requires { IsRectOn self.old.side op.area }
        ensures { self.new ≡ with_rectangle self.old op }
    {
        self.has_all_cells();
        let columns = columns_between(op.area.first.col, op.area.last.col);
        'rows: for row in op.area.first.row..op.area.last.row + 1 {
            self.colour_columns(row, columns, op.cell);
        }
    }

    /// Empties the points of a set. There may be fewer rows than the board has.
    pub(crate) fn empty_set(&mut self, rows: &[u64])
        requires few { length rows.now ≤ self.old.side }
        requires on_board { (p : Point) → IsTrue (is_set rows.now p) → IsOn self.old.side p }
        ensures { IsWithout self.old self.new (λ p. IsTrue (is_set rows.now p)) }
    {
        self.has_all_cells();
        'rows: for row in 0..rows.len() {
            let columns = rows[row];
            if columns != 0 {
                self.colour_columns(row as u8, columns, Cell::Empty);
            }
        }
    }
}
