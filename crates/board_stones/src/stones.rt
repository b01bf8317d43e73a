//! Players, and what stands on a point.

ghost use Rattle.std.specs.Prelude.{◌≡◌};
ghost use Rattle.board_stones.specs.Colour.{opponent, stone_of};

/// A player, by the colour of her stones.
#[derive(Clone, Copy, Debug, PartialEq, Eq)]
pub enum Colour {
    Black,
    White,
}

/// What stands on a point: a black stone, a white stone, or nothing (Tromp-Taylor).
#[derive(Clone, Copy, Debug, PartialEq, Eq)]
pub enum Cell {
    Black,
    White,
    Empty,
}

impl Colour {
    /// The other player.
    pub fn opponent(self) -> Colour
        ensures { result ≡ opponent self }
    {
        match self {
            Colour::Black => Colour::White,
            Colour::White => Colour::Black,
        }
    }

    /// A point with this player's stone.
    pub fn stone(self) -> Cell
        ensures { result ≡ stone_of self }
    {
        match self {
            Colour::Black => Cell::Black,
            Colour::White => Cell::White,
        }
    }
}
