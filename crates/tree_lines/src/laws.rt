//! Laws of the definitions. A function here does nothing: its contract is a law, and is proved.

ghost use Rattle.std.specs.Prelude.{ℕ, All, List, map};
ghost use Rattle.std.specs.List.{AllZip};
ghost use Rattle.std.specs.List.Sorted.{IsStrictlyIncreasing};
ghost use Rattle.sgf_outline.specs.Spelling.{Spells};
ghost use Rattle.sgf_outline.specs.Tree.{Games};
ghost use Rattle.tree_lines.specs.Lines.{lines, place_of};
ghost use Rattle.tree_lines.specs.Paths.{paths, EndsInLeaf, IsPathOf};

/// If some text spells a collection, the places of its lines rise strictly. So no line comes twice, and a line is identified by its place.
#[tactic(auto, using(crate::proofs::LinePlaces::lines_rise))]
pub fn rise()
    ensures { (games : Games) (text : List ℕ) → Spells games text → IsStrictlyIncreasing (map place_of (lines games)) }
{
    sgf_tree::laws::places_rise();
}

/// The paths of a collection name the nodes of its lines. There is one path for each line, in the same order, and each ends in a leaf.
#[tactic(auto, using(crate::proofs::Named::each_named, crate::proofs::Visits::each_ends))]
pub fn named()
    ensures nodes { (games : Games) → AllZip (IsPathOf games) (lines games) (paths games) }
    ensures leaf { (games : Games) → All (EndsInLeaf games) (paths games) }
{}
