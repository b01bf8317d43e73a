//! What a node holds for the referee and for a script: moves, stones and players (SGF FF[4], move and setup properties), and a comment. It
//! is gathered in one pass over its properties (`step`). What raw values say on a board stands here, too (SGF FF[4], "Move" and "Color").

ghost use Rattle.std.specs.Prelude.{◌≡◌, ◌∷◌, ◌++◌, [], ℕ, List, Option, IfOk, IfSome, IsSome, OnOk};
ghost use Rattle.sgf_outline.specs.Tree.{Property, lone_property, values};
ghost use Rattle.board_stones.specs.declared.stones.Colour.{Colour};
ghost use Rattle.go_board.specs.State.{IsPlayOn};
ghost use Rattle.judged_lines.specs.NodeContents.{Move, moves_by, stones_of};
ghost use Rattle.judged_lines.specs.NodeValues.{last_player as last_player_rule, move_value as move_value_rule, player_value as player_value_rule};
ghost use Rattle.judged_lines.specs.inner.Gathered.{AreMoves, AddsRectangles, IsGathered, kind_of as kind_of_rule, setup_with};

use go_board::{Cell, Colour, Play, SetupOp, Size, point, rect};
use sgf_tree::{MemoryFault, PropRef};

/// The names of two letters that `kind_of` knows. A node that is recognized at a glance has none of them (`SequenceNodes::next`).
pub(crate) const NEEDED_NAMES: [[u8; 2]; 4] = [*b"AB", *b"AW", *b"AE", *b"PL"];

/// The greatest side of a board on which `tt` is a pass.
const MAX_LETTER_PASS_SIDE: u8 = 19;

/// The moves of a node, as far as a step needs them.
#[derive(Clone, Copy)]
pub(crate) enum Moves<'a> {
    Nothing,
    /// One move: the player, and the raw value that names the point or the pass.
    One(Colour, &'a [u8]),
    /// Two moves or more.
    Several,
}

/// What the stones and the players of a node set up.
#[derive(Clone, Copy)]
pub(crate) enum Setup {
    /// There are neither stones nor players.
    Nothing,
    /// Each value names a rectangle of the board or a player. The field is the last player, if there is one.
    Meant(Option<Colour>),
    /// Some value of AB, AW or AE names no rectangle of the board, or some value of PL names no player.
    Faulty,
}

/// What a node holds for the referee and for a script.
#[derive(Clone, Copy)]
pub(crate) struct Contents<'a> {
    pub(crate) moves: Moves<'a>,
    pub(crate) setup: Setup,
    /// The first value of the node's first C.
    pub(crate) comment: Option<&'a [u8]>,
}

/// What the values of a property are.
#[derive(Clone, Copy)]
pub(crate) enum Kind {
    Move(Colour),
    Stones(Cell),
    Player,
    Comment,
}

impl<'a> Contents<'a> {
    /// The contents of a node without properties.
    pub(crate) fn nothing() -> Contents<'a>
        ensures { (side : ℕ) → IsGathered side [] [] result }
    {
        Contents {
            moves: Moves::Nothing,
            setup: Setup::Nothing,
            comment: None,
        }
    }

    /// What a property holds if its name is this one letter and its only value is `raw`.
    pub(crate) fn of_lone(letter: u8, raw: &'a [u8]) -> Contents<'a>
        ensures { (side : ℕ) → IsGathered side (lone_property letter raw.now ∷ []) [] result }
    {
        let mut contents = Contents {
            moves: Moves::Nothing,
            setup: Setup::Nothing,
            comment: None,
        };
        match letter {
            b'B' => contents.moves = Moves::One(Colour::Black, raw),
            b'W' => contents.moves = Moves::One(Colour::White, raw),
            b'C' => contents.comment = Some(raw),
            _ => {}
        }
        contents
    }

    /// Adds what a property holds, on a board of that size. Unless the setup is faulty, `operations` gets those of its stones, in order.
    pub(crate) fn take(
        &mut self,
        property: &PropRef<'a>,
        size: Size,
        operations: &mut Vec<SetupOp>,
    ) -> Result<(), MemoryFault>
        ensures { (front : List Property) → IsGathered size front operations.old.items self.old
            → OnOk result (IsGathered size (front ++ property.now ∷ []) operations.new.items self.new) }
    {
        match kind_of(property) {
            Some(Kind::Move(colour)) => self.moves = with_moves(self.moves, colour, property),
            Some(Kind::Stones(cell)) => {
                let good = push_rectangles(cell, property, size, operations)?;
                self.setup = with_values(self.setup, good.then_some(None));
            }
            Some(Kind::Player) => self.setup = with_values(self.setup, last_player(property)),
            Some(Kind::Comment) => self.comment = self.comment.or(Some(property.value(0))),
            None => {}
        }
        Ok(())
    }
}

/// These moves, and then those of a property.
#[tactic(auto, using(crate::proofs::Gathered::two_at_least))]
fn with_moves<'a>(moves: Moves<'a>, colour: Colour, property: &PropRef<'a>) -> Moves<'a>
    ensures { (ms : List Move) → AreMoves moves.entry ms → AreMoves result (ms ++ moves_by colour property.now) }
{
    let mut values = property.iter();
    let raw = values.next().unwrap();
    match moves {
        Moves::Nothing => match values.next() {
            None => Moves::One(colour, raw),
            Some(_) => Moves::Several,
        },
        Moves::One(..) | Moves::Several => Moves::Several,
    }
}

/// Appends the operations of a property's stones. Returns whether each of its values names a rectangle of the board.
fn push_rectangles(
    cell: Cell,
    property: &PropRef<'_>,
    size: Size,
    operations: &mut Vec<SetupOp>,
) -> Result<bool, MemoryFault>
    ensures { IfOk result (AddsRectangles size (stones_of cell property.now) operations.old.items operations.new.items) }
{
    let mut values = property.iter();
    while let Some(raw) = values.next() {
        let Some(area) = rect(raw, size) else {
            return Ok(false);
        };
        operations.push(SetupOp { cell, area })?;
    }
    Ok(true)
}

/// A setup with the values of one more property. `named` is None if one of them is faulty (`Setup::Faulty`). Else it is the last player
/// that they name, if there is one; stones name none. This player replaces those before.
fn with_values(setup: Setup, named: Option<Option<Colour>>) -> Setup
    ensures { result ≡ setup_with setup named }
{
    match (setup, named) {
        (Setup::Faulty, _) | (_, None) => Setup::Faulty,
        (Setup::Meant(player), Some(None)) => Setup::Meant(player),
        (_, Some(last)) => Setup::Meant(last),
    }
}

/// The player that the last value of a PL names, as `with_values` takes it: never `Some(None)`. None if some value names no player.
fn last_player(property: &PropRef<'_>) -> Option<Option<Colour>>
    ensures last { (before : Option Colour) → last_player_rule before (values property.now) ≡ result }
    ensures some { IfSome result IsSome }
{
    let mut values = property.iter();
    let mut last = player_value(values.next().unwrap())?;
    while let Some(raw) = values.next() {
        last = player_value(raw)?;
    }
    Some(Some(last))
}

/// What the values of a property are; None if neither the referee nor a script needs them. So KM, HA, KO, RE and all others have no effect.
fn kind_of(property: &PropRef<'_>) -> Option<Kind>
    ensures { result ≡ kind_of_rule property.now }
{
    match property.initial() {
        b'B' if property.is(b"B") => Some(Kind::Move(Colour::Black)),
        b'W' if property.is(b"W") => Some(Kind::Move(Colour::White)),
        b'C' if property.is(b"C") => Some(Kind::Comment),
        b'P' if property.is(b"PL") => Some(Kind::Player),
        b'A' if property.is(b"AB") => Some(Kind::Stones(Cell::Black)),
        b'A' if property.is(b"AW") => Some(Kind::Stones(Cell::White)),
        b'A' if property.is(b"AE") => Some(Kind::Stones(Cell::Empty)),
        _ => None,
    }
}

/// The play of a move: a stone on a point of the board, or a pass (the empty value, or `tt` on a side of 19 or less). None for all others.
pub(crate) fn move_value(raw: &[u8], size: Size) -> Option<Play>
    ensures value { result ≡ move_value_rule raw.now size }
    ensures on_board { IfSome result (IsPlayOn size) }
{
    if raw.is_empty() || (raw == b"tt".as_slice() && size.side() <= MAX_LETTER_PASS_SIDE) {
        return Some(Play::Pass);
    }
    Some(Play::Stone(point(raw, size)?))
}

/// The player that a value of PL names, `B` or `W`; None for any other value.
fn player_value(raw: &[u8]) -> Option<Colour>
    ensures { result ≡ player_value_rule raw.now }
{
    match raw {
        b"B" => Some(Colour::Black),
        b"W" => Some(Colour::White),
        _ => None,
    }
}
