//! Calls of a referee that ask for memory: `new`, `turn`, `setup` and `stay`. Also `reset`, which asks for
//! none with `ListPast` and `PrintPast`.

use crate::seen::Seen;
use go_board::{
    Board, Cell, Colour, Past, Play, Point, Reason, Rect, Referee, SetupOp, Size, TurnFault,
};
use std::alloc::Global;

/// Plays two games.
pub fn calls<P: Past>(alloc: Global, seen: &mut Seen) {
    if let Some(mut game) = begin::<P>(alloc, 1, seen) {
        passes_twice(&mut game, seen);
    }
    if let Some(start) = begin::<P>(alloc, 3, seen) {
        on_three(alloc, &start, seen);
    }
}

const CORNER: Play = Play::Stone(Point { col: 0, row: 0 });

/// What a player plays and the result; then the number of turns made, and whether the game is over.
type Answered = (Colour, Play, Result<(), Reason>, u64, bool);

/// On a board of one point: Black must move first, every stone repeats the empty board, and two passes end the game.
const PASSES: [Answered; 5] = [
    (Colour::Black, CORNER, Err(Reason::Repeat), 0, false),
    (Colour::White, Play::Pass, Err(Reason::Turn), 0, false),
    (Colour::Black, Play::Pass, Ok(()), 1, false),
    (Colour::White, Play::Pass, Ok(()), 2, true),
    (Colour::Black, Play::Pass, Err(Reason::Over), 2, true),
];

/// Takes those turns, and takes back the last pass. Then adds the present state once more, undoes that, and begins another game, which asks
/// for no memory with `ListPast` and `PrintPast`.
fn passes_twice<P: Past>(game: &mut Referee<P>, seen: &mut Seen) {
    for &(colour, play, answer, turns, over) in &PASSES {
        make(game, Call::Turn(colour, play), answer, seen);
        let is_so = game.turns() == turns && game.over() == over;
        seen.right(is_so, "a game of passes");
    }
    undo(game, seen);
    stays(game, seen);
    let is_so = !game.over() && game.turns() == 1 && game.depth() == 1;
    seen.right(is_so, "a game after an undo");
    let size = game.board().size();
    seen.call();
    seen.right(game.reset(size).is_ok(), "a reset");
    let is_so = !game.over() && game.turns() == 0 && game.depth() == 0;
    seen.right(is_so, "a game after a reset");
}

/// Plays a game on three by three points. At its end it must be like `start`, which stays at its beginning.
fn on_three<P: Past>(alloc: Global, start: &Referee<P>, seen: &mut Seen) {
    if let Some(mut game) = begin::<P>(alloc, 3, seen) {
        sets_up(&mut game, start, seen);
    }
}

/// White's turns after she was given the top row, and their results.
const ON_THREE: [(Point, Result<(), Reason>); 3] = [
    (Point { col: 0, row: 0 }, Err(Reason::Occupied)),
    (Point { col: 1, row: 1 }, Ok(())),
    (Point { col: 2, row: 2 }, Err(Reason::Turn)),
];

/// A setup colours an area, lets either player move, and is taken back as a whole.
fn sets_up<P: Past>(game: &mut Referee<P>, start: &Referee<P>, seen: &mut Seen) {
    let top = Rect {
        first: Point { col: 0, row: 0 },
        last: Point { col: 2, row: 0 },
    };
    make(game, Call::Setup(Cell::White, top), Ok(()), seen);
    seen.right(game.depth() == 1, "a game after a setup");
    for &(point, answer) in &ON_THREE {
        let stone = Call::Turn(Colour::White, Play::Stone(point));
        make(game, stone, answer, seen);
    }
    seen.right(game.score() == (0, 9), "the score after a stone");
    undo(game, seen);
    undo(game, seen);
    let is_start = Shown::of(start).is_of(game);
    seen.right(is_start, "a game after all undos");
    let pass = Call::Turn(Colour::White, Play::Pass);
    make(game, pass, Err(Reason::Turn), seen);
}

/// What can be seen of a referee.
#[derive(Drop)]
pub struct Shown {
    board: Board,
    turns: u64,
    over: bool,
    score: (u32, u32),
    depth: usize,
}

impl Shown {
    /// What this referee shows.
    pub fn of<P: Past>(game: &Referee<P>) -> Shown {
        Shown {
            board: game.board().copy(),
            turns: game.turns(),
            over: game.over(),
            score: game.score(),
            depth: game.depth(),
        }
    }

    /// Whether this referee shows the same.
    pub fn is_of<P: Past>(&self, game: &Referee<P>) -> bool {
        self.board.same(game.board())
            && self.turns == game.turns()
            && self.over == game.over()
            && self.score == game.score()
            && self.depth == game.depth()
    }
}

/// A new referee. If memory was refused, the referee is made once more.
pub fn begin<P: Past>(alloc: Global, side: u8, seen: &mut Seen) -> Option<Referee<P>> {
    let Some(size) = Size::new(side) else {
        seen.wrong("no board of the side");
        return None;
    };
    seen.call();
    if let Ok(game) = Referee::<P>::new(alloc, size) {
        return Some(game);
    }
    seen.want();
    let again = Referee::<P>::new(alloc, size);
    seen.right(again.is_ok(), "a referee asked for again");
    again.ok()
}

/// A call of a referee that asks for memory.
#[derive(Clone, Copy)]
pub enum Call {
    Turn(Colour, Play),
    /// Sets an area up.
    Setup(Cell, Rect),
    /// Adds the present state once more.
    Stay,
}

/// Makes a call. If memory was refused, the game must be unchanged, and the call is made once more. If a reason forbids a
/// turn, the game must be unchanged too, and no memory may be asked for.
pub fn make<P: Past>(
    game: &mut Referee<P>,
    call: Call,
    answer: Result<(), Reason>,
    seen: &mut Seen,
) {
    let before = Shown::of(game);
    seen.call();
    let mut given = answer_of(game, call);
    if given == Err(TurnFault::Memory) {
        seen.want();
        seen.right(before.is_of(game), "a game after a refused call");
        seen.right(answer.is_ok(), "memory for an illegal turn");
        given = answer_of(game, call);
    }
    match answer {
        Ok(()) => {
            let is_so = given.is_ok() && game.depth() > before.depth;
            seen.right(is_so, "a game after a call");
        }
        Err(reason) => {
            let is_so = given == Err(TurnFault::Illegal(reason)) && before.is_of(game);
            seen.right(is_so, "a game after an illegal turn");
        }
    }
}

/// The answer of a call. `BadPoint` is that of a point off the board, which no call may name.
fn answer_of<P: Past>(game: &mut Referee<P>, call: Call) -> Result<(), TurnFault> {
    let side = game.board().size().side();
    match call {
        Call::Turn(colour, play) => {
            if let Play::Stone(point) = play {
                if point.col >= side || point.row >= side {
                    return Err(TurnFault::Illegal(Reason::BadPoint));
                }
            }
            game.turn(colour, play)
        }
        Call::Setup(cell, area) => {
            let Rect { first, last } = area;
            let is_area = first.col <= last.col && first.row <= last.row;
            if !is_area || last.col >= side || last.row >= side {
                return Err(TurnFault::Illegal(Reason::BadPoint));
            }
            Ok(game.setup(&[SetupOp { cell, area }], None)?)
        }
        Call::Stay => Ok(game.stay()?),
    }
}

/// Adds the present state once more, and undoes that.
fn stays<P: Past>(game: &mut Referee<P>, seen: &mut Seen) {
    let before = Shown::of(game);
    make(game, Call::Stay, Ok(()), seen);
    undo(game, seen);
    seen.right(
        before.is_of(game),
        "a game after a stay that was taken back",
    );
}

/// Takes back the newest turn, setup or stay.
pub fn undo<P: Past>(game: &mut Referee<P>, seen: &mut Seen) {
    if game.depth() == 0 {
        return seen.wrong("nothing to take back");
    }
    game.undo();
}
