//! Worked examples of a referee.

use crate::given::{at, holds, size};
use go_board::{
    Cell, Colour, ListPast, Past, Play, Point, PrintPast, Reason, Rect, Referee, SetupOp, TurnFault,
};
use std::alloc::Global;
use std::process::Abort;

/// Takes a turn. If the turn isn't legal, returns the reason. The point of a stone must be on the board.
pub(crate) fn turn<P: Past>(
    rt: &impl Abort,
    referee: &mut Referee<P>,
    colour: Colour,
    play: Play,
) -> Result<(), TurnFault> {
    if let Play::Stone(point) = play {
        let side = referee.board().size().side();
        assert!(rt; point.col < side && point.row < side);
    }
    referee.turn(colour, play)
}

/// Takes a turn, which must have this result.
pub(crate) fn answers<P: Past>(
    rt: &impl Abort,
    referee: &mut Referee<P>,
    colour: Colour,
    play: Play,
    answer: Result<(), TurnFault>,
) {
    assert!(rt;
        turn(rt, referee, colour, play) == answer,
        "{colour:?} {play:?}"
    );
}

/// A new game on a board of this side.
pub(crate) fn begin<P: Past>(rt: &impl Abort, alloc: Global, side: u8) -> Referee<P> {
    Referee::<P>::new(alloc, size(rt, side)).expect(rt, "a new game")
}

/// The game must have this score.
pub(crate) fn scores<P: Past>(rt: &impl Abort, referee: &Referee<P>, score: (u32, u32)) {
    holds(rt, referee.score() == score, "the score");
}

/// The referee must have made this many turns, be able to undo this many calls, and give this score.
fn stands<P: Past>(
    rt: &impl Abort,
    referee: &Referee<P>,
    turns: u64,
    depth: usize,
    score: (u32, u32),
) {
    holds(rt, referee.turns() == turns, "the number of turns");
    holds(rt, referee.depth() == depth, "the depth");
    scores(rt, referee, score);
}

/// Takes back the newest turn or setup.
pub(crate) fn undo<P: Past>(rt: &impl Abort, referee: &mut Referee<P>) {
    assert!(rt; referee.depth() > 0);
    referee.undo();
}

/// What a turn may return.
type Answer = Result<(), TurnFault>;

const OCCUPIED: Answer = Err(TurnFault::Illegal(Reason::Occupied));

const REPEAT: Answer = Err(TurnFault::Illegal(Reason::Repeat));

const TURN: Answer = Err(TurnFault::Illegal(Reason::Turn));

const OVER: Answer = Err(TurnFault::Illegal(Reason::Over));

const CORNER: Play = Play::Stone(Point { col: 0, row: 0 });

/// What a player plays and the result; then the number of turns made, and whether the game is over.
type Answered = (Colour, Play, Answer, u64, bool);

/// On a board of one point: Black must move first, every stone repeats the empty board, and two passes end the game.
const PASSES: [Answered; 5] = [
    (Colour::Black, CORNER, REPEAT, 0, false),
    (Colour::White, Play::Pass, TURN, 0, false),
    (Colour::Black, Play::Pass, Ok(()), 1, false),
    (Colour::White, Play::Pass, Ok(()), 2, true),
    (Colour::Black, Play::Pass, OVER, 2, true),
];

/// Takes those turns, and takes back White's pass.
fn on_one<P: Past>(rt: &impl Abort, alloc: Global) {
    let mut game = begin::<P>(rt, alloc, 1);
    for &(colour, play, answer, turns, over) in &PASSES {
        answers(rt, &mut game, colour, play, answer);
        stands(rt, &game, turns, turns as usize, (0, 0));
        holds(rt, game.over() == over, "the end of the game");
    }
    undo(rt, &mut game);
    holds(rt, !game.over(), "a game after an undo");
    stands(rt, &game, 1, 1, (0, 0));
}

/// White's turns after she was given the top row.
const ON_THREE: [(u8, u8, Answer); 3] = [(0, 0, OCCUPIED), (1, 1, Ok(())), (2, 2, TURN)];

/// A setup colours an area, lets either player move, and is taken back as a whole.
fn on_three<P: Past>(rt: &impl Abort, alloc: Global) {
    let mut game = begin::<P>(rt, alloc, 3);
    assert!(rt; game.board().size().side() == 3);
    let area = Rect {
        first: at(0, 0),
        last: at(2, 0),
    };
    let cell = Cell::White;
    let taken = game.setup(&[SetupOp { cell, area }], None);
    holds(rt, taken.is_ok(), "a setup");
    for &(col, row, answer) in &ON_THREE {
        let stone = Play::Stone(at(col, row));
        answers(rt, &mut game, Colour::White, stone, answer);
    }
    undo(rt, &mut game);
    undo(rt, &mut game);
    stands(rt, &game, 0, 0, (0, 0));
    answers(rt, &mut game, Colour::White, Play::Pass, TURN);
}

/// A setup names only the player, White. She plays the only stone, and all nine points count for her.
fn player_alone<P: Past>(rt: &impl Abort, alloc: Global) {
    let mut game = begin::<P>(rt, alloc, 3);
    let taken = game.setup(&[], Some(Colour::White));
    holds(rt, taken.is_ok(), "a setup of the player");
    answers(rt, &mut game, Colour::White, CORNER, Ok(()));
    stands(rt, &game, 1, 2, (0, 9));
}

/// Takes two turns, and begins another game. The referee must then be like a new one, whether the board has another side or the same.
fn another_game<P: Past>(rt: &impl Abort, alloc: Global) {
    let mut game = begin::<P>(rt, alloc, 3);
    for &side in &[2, 5, 5] {
        answers(rt, &mut game, Colour::Black, CORNER, Ok(()));
        answers(rt, &mut game, Colour::White, Play::Pass, Ok(()));
        holds(rt, game.reset(size(rt, side)).is_ok(), "a reset");
        stands(rt, &game, 0, 0, (0, 0));
        holds(rt, game.board().size().side() == side, "the side");
    }
}

/// The examples, with one kind of past.
fn examples<P: Past>(rt: &impl Abort, alloc: Global) {
    on_one::<P>(rt, alloc);
    on_three::<P>(rt, alloc);
    another_game::<P>(rt, alloc);
    player_alone::<P>(rt, alloc);
}

#[test]
fn referee_over_both_pasts(rt: HostRuntime) {
    examples::<ListPast>(&rt, rt.alloc());
    examples::<PrintPast>(&rt, rt.alloc());
}

#[test]
fn fault_texts(rt: HostRuntime) {
    let illegal = TurnFault::Illegal(Reason::TwoMoves);
    let faults = format!(in rt.alloc(); "{illegal}, {}", TurnFault::Memory);
    let faults = faults.expect(&rt, "room for the messages");
    assert_eq!(rt; faults.as_str(), "illegal turn: two-moves, out of memory");
}
