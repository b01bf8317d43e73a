//! The points of a square board: sizes, points and rectangles, how SGF values and GTP vertices name them, sets of points as rows of bits,
//! and filling these.
//!
//! A board has 1 to 52 points a side. (52 is the largest side whose points SGF FF[4] can name.) What stands on the points isn't the subject
//! of this crate. Where it speaks of stones, these are sets of points: the player's own stones, and the others.
//!
//! A set of points is a list of words: a word for each row from the top, with a bit for each column. So one operation on a word is one on
//! all points of a row. A set is *filled* within a region: it gets each point of the region that a path of adjacent points within the
//! region connects to it. A *free* point has no stone. A free point beside a stone is a *liberty* of the stone. These forms of sets are
//! this project's choice.
//!
//! The code outside `quick` is complete and can be read by itself. `quick` has faster ways to some of the same answers, and may be skipped.
//!
//! ```text
//! let size = Size::new(19)?;
//! let corner = point(b"aa", size)?;
//! let mut set = no_rows();
//! set[usize::from(corner.row)] = with_column(0, usize::from(corner.col), true);
//! fill(&mut set[..19], region);
//! ```
//!
//! | Module | What it has |
//! |---|---|
//! | `size` | the side of a board |
//! | `points` | points and rectangles, and the four neighbours of a point |
//! | `values` | the points and rectangles that SGF property values name |
//! | `vertices` | points as the Go Text Protocol writes them |
//! | `marks` | a set of points that is asked point by point |
//! | `search` | the worklist of a search over points |
//! | `columns` | sets of columns of a row, as a word |
//! | `rows` | sets of points, as rows of words |
//! | `fill` | filling a set of points |
//! | `liberty` | which points have a liberty |
//! | `quick` | shortcuts: a glance at the rows around a stone, one group by itself, two sets in one list of words |
//! | `laws` | what follows from the definitions |
//!
//! | Rule (docs/RULES.md) | Function, and its module |
//! |---|---|
//! | the side of a board | `Size::new` (`size`) |
//! | adjacent points | `Point::neighbours` (`points`) |
//! | points and rectangles that values name | `point`, `rect` (`values`) |
//! | vertices | `vertex` (`vertices`) |
//! | the points that a path within a region connects | `fill` (`fill`) |
//! | stones with a liberty of their own; all stones of groups without one: `Board::shut_stones` of `board_stones` (`board/regions`) | `stones_with_liberty` (`liberty`); shortcuts: `leaves_all_alive` (`quick/glance`), `lives_in_row`, `fill_if_shut`, `add_to_either` (`quick/group`) |
//! | the points that one area has and the other hasn't | `count_apart` (`rows`); shortcut below side 32: `count_halves` (`quick/halves`) |
//!
//! No function here takes memory. Worked examples are in the crate `go_board_tests`.
#![tactic(auto)]

pub mod columns;
pub mod fill;
pub mod laws;
pub mod liberty;
mod marks;
mod points;
pub mod quick;
pub mod rows;
mod search;
mod size;
mod values;
mod vertices;

pub use marks::Marks;
pub use points::{Point, Rect};
pub use search::Search;
pub use size::{MAX_POINTS, MAX_ROWS, MAX_SIDE, Size};
pub use values::{point, rect};
pub use vertices::naming::vertex;
pub use vertices::{MAX_VERTEX_SIDE, Vertex};
