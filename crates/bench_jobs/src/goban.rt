//! A toy board for making up games, not the program's: quick and small, it knows captures and the simplest ko. The rules that the program
//! judges by stand in `board_stones`, `board_past` and `go_board`.

use crate::chance::Chance;

/// The number of cells in a row, with those outside the board.
const ROW: usize = 64;

/// The number of all cells.
const CELLS: usize = 4096;

const EMPTY: u8 = 0;

const BLACK: u8 = 1;

const WHITE: u8 = 2;

const OUTSIDE: u8 = 3;

/// A pass, as a point.
pub(crate) const PASS: usize = 0;

/// A player.
#[derive(Clone, Copy, PartialEq, Eq)]
pub(crate) enum Player {
    Black,
    White,
}

impl Player {
    /// The player of a move, by the number of moves before it.
    pub(crate) fn at(depth: usize) -> Player {
        if depth % 2 == 0 {
            Player::Black
        } else {
            Player::White
        }
    }

    /// The other player.
    pub(crate) fn other(self) -> Player {
        match self {
            Player::Black => Player::White,
            Player::White => Player::Black,
        }
    }

    /// The letter that SGF has for the player.
    pub(crate) fn letter(self) -> u8 {
        match self {
            Player::Black => b'B',
            Player::White => b'W',
        }
    }

    fn stone(self) -> u8 {
        match self {
            Player::Black => BLACK,
            Player::White => WHITE,
        }
    }
}

/// A board. The point in column `col` and row `row`, from 0, has the cell `ROW * (row + 1) + col + 1`.
#[derive(Drop)]
pub(crate) struct Goban {
    side: usize,
    cells: [u8; CELLS],
    /// The number of the search that found a cell last.
    found: [u32; CELLS],
    search: u32,
    /// The stones of the group that was searched last.
    group: [u16; CELLS],
    size: usize,
    /// The point that the simplest ko forbids; `PASS` if there is none.
    ko: usize,
}

impl Goban {
    /// An empty board.
    pub(crate) fn new(side: usize) -> Goban {
        let mut goban = Goban {
            side,
            cells: [OUTSIDE; CELLS],
            found: [0; CELLS],
            search: 0,
            group: [0; CELLS],
            size: 0,
            ko: PASS,
        };
        goban.clear(side);
        goban
    }

    /// Empties the board, which gets another side.
    pub(crate) fn clear(&mut self, side: usize) {
        self.side = side.min(52);
        self.ko = PASS;
        self.cells.fill(OUTSIDE);
        for row in 0..self.side {
            for col in 0..self.side {
                self.set(cell(col, row), EMPTY);
            }
        }
    }

    /// What stands on a point.
    fn at(&self, point: usize) -> u8 {
        self.cells[point % CELLS]
    }

    fn set(&mut self, point: usize, stone: u8) {
        self.cells[point % CELLS] = stone;
    }

    /// Whether nothing stands on a point of the board.
    pub(crate) fn is_free(&self, point: usize) -> bool {
        self.at(point) == EMPTY
    }

    /// Empties the board, which gets this side, and puts the stones of a line, black and white by turns, without any rule.
    pub(crate) fn set_line(&mut self, side: usize, line: &[u16]) {
        self.clear(side);
        for (i, point) in line.iter().enumerate() {
            let point = usize::from(*point);
            if self.is_free(point) {
                self.set(point, Player::at(i).stone());
            }
        }
    }

    /// A point of the board.
    pub(crate) fn anywhere(&self, chance: &mut Chance) -> usize {
        let col = chance.below(self.side);
        let row = chance.below(self.side);
        cell(col, row)
    }

    /// A point of the board or just outside it, at most two columns and two rows from another one.
    fn near(&self, point: usize, chance: &mut Chance) -> usize {
        let shift = chance.below(5).wrapping_add(ROW * chance.below(5).min(4));
        point.wrapping_add(shift).wrapping_sub(2 * ROW + 2)
    }

    /// Plays a move, most often near the point `last`. A careful player doesn't fill eyes. None if no point was found.
    pub(crate) fn play_somewhere(
        &mut self,
        player: Player,
        last: usize,
        careful: bool,
        chance: &mut Chance,
    ) -> Option<usize> {
        for _ in 0..24 {
            let point = if last == PASS || chance.once_in(4) {
                self.anywhere(chance)
            } else {
                self.near(last, chance)
            };
            let eye = careful && self.is_eye(player, point);
            if !eye && self.play(player, point) {
                return Some(point % CELLS);
            }
        }
        if careful {
            return None;
        }
        self.play_first(player, chance)
    }

    /// Plays a careful move near the point `last`, or passes. Returns the point.
    pub(crate) fn play_on(&mut self, player: Player, last: usize, chance: &mut Chance) -> usize {
        self.play_somewhere(player, last, true, chance)
            .unwrap_or(PASS)
    }

    /// The point that the simplest ko forbids; `PASS` if there is none.
    pub(crate) fn forbidden(&self) -> usize {
        self.ko
    }

    /// Plays the first move that is allowed, from some row on.
    fn play_first(&mut self, player: Player, chance: &mut Chance) -> Option<usize> {
        let first = chance.below(self.side);
        for i in 0..52 * 52 {
            let row = first.wrapping_add(i / 52) % 52;
            let point = cell(i % 52, row);
            if self.play(player, point) {
                return Some(point % CELLS);
            }
        }
        None
    }

    /// Whether the points beside a point all have the player's stones or are outside.
    fn is_eye(&self, player: Player, point: usize) -> bool {
        let mut own = true;
        for beside in beside(point) {
            let stone = self.at(beside);
            own = own && (stone == player.stone() || stone == OUTSIDE);
        }
        own
    }

    /// Plays a stone. Returns whether that is allowed.
    pub(crate) fn play(&mut self, player: Player, point: usize) -> bool {
        if !self.is_free(point) || point == self.ko {
            return false;
        }
        self.set(point, player.stone());
        let mut taken = 0usize;
        let mut last = PASS;
        for beside in beside(point) {
            if self.at(beside) == player.other().stone() && !self.lives(beside) {
                taken = taken.wrapping_add(self.size);
                last = beside;
                self.take_off();
            }
        }
        if taken == 0 && !self.lives(point) {
            self.set(point, EMPTY);
            return false;
        }
        self.ko = if taken == 1 { last } else { PASS };
        true
    }

    /// Whether the group of a stone has a liberty. If it has none, the whole group was found.
    fn lives(&mut self, start: usize) -> bool {
        self.search = self.search.wrapping_add(1);
        self.size = 0;
        let stone = self.at(start);
        self.find(start);
        for next in 0..CELLS {
            if next >= self.size {
                return false;
            }
            let point = usize::from(self.group[next]);
            for beside in beside(point) {
                let other = self.at(beside);
                if other == EMPTY {
                    return true;
                }
                if other == stone {
                    self.find(beside);
                }
            }
        }
        false
    }

    /// Adds a point to the group, if it wasn't found before.
    fn find(&mut self, point: usize) {
        let place = point % CELLS;
        if self.found[place] != self.search && self.size < CELLS {
            self.found[place] = self.search;
            self.group[self.size] = place as u16;
            self.size += 1;
        }
    }

    /// Takes the group off that was found last.
    fn take_off(&mut self) {
        for i in 0..self.size.min(CELLS) {
            let point = usize::from(self.group[i]);
            self.set(point, EMPTY);
        }
    }
}

/// The cell of a point.
pub(crate) fn cell(col: usize, row: usize) -> usize {
    (row.min(62) + 1) * ROW + col.min(61) + 1
}

/// The column and the row of a point, from 0.
pub(crate) fn place(point: usize) -> (usize, usize) {
    let col = (point % ROW).saturating_sub(1);
    let row = (point % CELLS / ROW).saturating_sub(1);
    (col, row)
}

/// The points beside a point.
fn beside(point: usize) -> [usize; 4] {
    [
        point.wrapping_sub(ROW),
        point.wrapping_sub(1),
        point.wrapping_add(1),
        point.wrapping_add(ROW),
    ]
}
