//! Laws of the definitions. A function here does nothing: its contract is a law, and is proved.

ghost use Rattle.std.specs.Prelude.{◌≡◌, ℕ, List, ◌++◌, length};
ghost use Rattle.sgf_outline.specs.FileOrder.{PlacesRise};
ghost use Rattle.sgf_tree.specs.Appending.{raised, BeginsWithByteOrderMark};
ghost use Rattle.sgf_outline.specs.Spelling.{Spells};
ghost use Rattle.sgf_outline.specs.Tree.{Games, joined};

pub use sgf_properties::laws::decoded;

/// One text after another. Let each of two texts spell games, and let the second not begin with a byte order mark. Then the two joined
/// spell the games of the first followed by those of the second. The places of the second are raised by the length of the first text.
#[tactic(auto, using(crate::proofs::Appending::spells_append))]
pub fn append()
    ensures { (games others : Games) (text later : List ℕ) → Spells games text → Spells others later
        → ¬ BeginsWithByteOrderMark later → Spells (joined games (raised (length text) others)) (text ++ later) }
{}

/// A text spells at most one collection (SGF FF\[4\], EBNF, with this project's choices). So the grammar is unambiguous, also in
/// the place of each node, in its properties and in their raw values.
#[tactic(auto, using(crate::proofs::SpelledAccepted::one_collection))]
pub fn one()
    ensures { (games others : Games) (text : List ℕ) → Spells games text → Spells others text → games ≡ others }
{}

/// If some text spells a collection, the places of the collection's nodes rise strictly in file order.
pub fn places_rise()
    ensures { (games : Games) (text : List ℕ) → Spells games text → PlacesRise games }
{}
