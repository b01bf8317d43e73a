//! What the words of the contracts mean. Each function here does nothing: its contract is a law, and is proved.

ghost use Rattle.std.specs.Prelude.{◌≡◌, ◌≢◌, ◌*◌, ◌↔◌, if◌then◌else◌, IsTrue, length, map};
ghost use Rattle.board_stones.specs.declared.stones.Cell.{Cell};
ghost use Rattle.board_stones.specs.declared.stones.Cell.TheVariants.{Empty};
ghost use Rattle.board_stones.specs.declared.stones.Colour.{Colour};
ghost use Rattle.board_points.specs.declared.points.Point.{Point};
ghost use Rattle.board_stones.specs.declared.setup_op.SetupOp.{SetupOp};
ghost use Rattle.board_stones.specs.Colour.{stone_of};
ghost use Rattle.board_points.specs.Point.{IsOn, points};
ghost use Rattle.board_stones.specs.Grid.{Grid, cell_at, with_cell};
ghost use Rattle.board_stones.specs.Reaching.{Reaches, reaches};
ghost use Rattle.board_stones.specs.Clearing.{clear, play, HasUnreaching, has_unreaching};
ghost use Rattle.board_stones.specs.Score.{CountsFor, counts_for};
ghost use Rattle.board_stones.specs.Rectangle.{is_in, with_rectangle};

pub use board_points::laws::{listing, naming};

/// The cells of a grid are what stands on its points, in the order of the points.
/// So two grids are equal if they have the same side and the same cell at each point.
pub fn colouring()
    ensures cells { (grid : Grid) → length grid.cells ≡ grid.side * grid.side → map (cell_at grid) (points grid.side) ≡ grid.cells }
    ensures same { (grid other : Grid) → grid.side ≡ other.side
        → length grid.cells ≡ grid.side * grid.side → length other.cells ≡ other.side * other.side
        → ((point : Point) → IsOn grid.side point → cell_at grid point ≡ cell_at other point) → grid ≡ other }
{}

/// `reaches` is true of exactly those points of the grid that reach a colour by a path.
#[tactic(auto, using(crate::proofs::ReachingLemmas::reach_rules))]
pub fn reaching()
    ensures { (grid : Grid) (wanted : Cell) (point : Point) → IsOn grid.side point
        → (IsTrue (reaches grid wanted point) ↔ Reaches grid wanted point) }
{}

/// Setting a point colours that point and no other.
#[tactic(auto, using(crate::proofs::GridLemmas::grid_rules))]
pub fn setting()
    ensures there { (grid : Grid) (point : Point) (cell : Cell) → IsOn grid.side point → length grid.cells ≡ grid.side * grid.side
        → cell_at (with_cell grid point cell) point ≡ cell }
    ensures elsewhere { (grid : Grid) (point other : Point) (cell : Cell) → IsOn grid.side point → IsOn grid.side other
        → other ≢ point → cell_at (with_cell grid point cell) other ≡ cell_at grid other }
{}

/// Clearing a colour empties exactly its points that don't reach empty by a path.
#[tactic(auto, using(crate::proofs::RuleLemmas::play_rules))]
pub fn clearing()
    ensures side { (grid : Grid) (colour : Colour) → (clear grid colour).side ≡ grid.side }
    ensures all { (grid : Grid) (colour : Colour) → length (clear grid colour).cells ≡ grid.side * grid.side }
    ensures emptied { (grid : Grid) (colour : Colour) (point : Point) → IsOn grid.side point
        → cell_at grid point ≡ stone_of colour → (¬ (Reaches grid Empty point)) → cell_at (clear grid colour) point ≡ Empty }
    ensures kept { (grid : Grid) (colour : Colour) (point : Point) → IsOn grid.side point
        → Reaches grid Empty point → cell_at (clear grid colour) point ≡ cell_at grid point }
    ensures others { (grid : Grid) (colour : Colour) (point : Point) → IsOn grid.side point → cell_at grid point ≢ stone_of colour
        → cell_at (clear grid colour) point ≡ cell_at grid point }
{}

/// A score counts exactly the points of the player's colour, and the empty points that reach her colour and not the other's.
#[tactic(auto, using(crate::proofs::RuleLemmas::decides_counts_for))]
pub fn scoring()
    ensures { (grid : Grid) (colour : Colour) (point : Point) → IsOn grid.side point
        → (IsTrue (counts_for grid colour point) ↔ CountsFor grid colour point) }
{}

/// `has_unreaching` is true exactly if a point of the grid has a stone and no path to an empty point.
#[tactic(auto, using(crate::proofs::RuleLemmas::play_rules))]
pub fn unreaching()
    ensures { (grid : Grid) → (IsTrue (has_unreaching grid) ↔ HasUnreaching grid) }
{}

/// After a move every stone is alive (reaches empty), whatever stood on the grid before.
pub fn moving()
    ensures { (grid : Grid) (colour : Colour) (point : Point) → ¬ HasUnreaching (play grid colour point) }
{}

/// Colouring a rectangle colours its points and no others.
#[tactic(auto, using(crate::proofs::GridLemmas::grid_rules), unfolding(crate::specs::Rectangle::with_rectangle))]
pub fn areas()
    ensures { (grid : Grid) (op : SetupOp) (point : Point) → IsOn grid.side point → cell_at (with_rectangle grid op) point
        ≡ (if is_in op.area point then op.cell else cell_at grid point) }
{}
