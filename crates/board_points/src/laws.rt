//! What the words of the contracts mean. Each function here does nothing: its contract is a law, and is proved.

ghost use Rattle.std.specs.Prelude.{◌≡◌, ◌≤◌, ◌*◌, ◌↔◌, Some, ℕ, length, slice_get};
ghost use Rattle.board_points.specs.declared.vertices.TheConstants.{MAX_VERTEX_SIDE};
ghost use Rattle.board_points.specs.Point.{Point, IsOn, index_of, points};
ghost use Rattle.board_points.specs.Vertex.{vertex_of};

/// The points of a grid are listed once each: each point at its index, and nowhere else.
pub fn listing()
    ensures length { (side : ℕ) → length (points side) ≡ side * side }
    ensures once { (side index : ℕ) (point : Point) → ((slice_get (points side) index ≡ Some point)
        ↔ (IsOn side point × (index ≡ index_of side point))) }
{}

/// Different points have different vertices.
#[tactic(auto, using(crate::proofs::VertexLemmas::vertex_of_injective))]
pub fn naming()
    ensures { (side : ℕ) (point other : Point) → side ≤ MAX_VERTEX_SIDE → IsOn side point → IsOn side other
        → vertex_of point side ≡ vertex_of other side → point ≡ other }
{}
