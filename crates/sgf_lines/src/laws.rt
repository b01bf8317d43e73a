//! Laws of the definitions. A function here does nothing: its contract is a law, and is proved.

ghost use Rattle.std.specs.Prelude.{◌≡◌, ◌≢◌, ◌≤◌, ◌∷◌, ◌++◌, ℕ, false, List, [], Some, length};
ghost use Rattle.std.specs.List.{AllZip, flat_map};
ghost use Rattle.sgf_tree.specs.Appending.{raised, BeginsWithByteOrderMark};
ghost use Rattle.sgf_outline.specs.Tree.{Games, game_count, node_count, joined};
ghost use Rattle.sgf_outline.specs.Spelling.{Spells};
ghost use Rattle.tree_lines.specs.Lines.{Line, lines, place_of};
ghost use Rattle.sgf_lines.specs.Page.{Options, page};
ghost use Rattle.judged_lines.specs.Plays.{touched_places, all_judged_places, node_places};
ghost use Rattle.sgf_lines.specs.declared.options.Form.TheVariants.{List as list_form, Sgf as sgf_form};
ghost use Rattle.sgf_lines.specs.Appending.{raised_record};
ghost use Rattle.sgf_lines.specs.Record.{output, record_of};
ghost use Rattle.sgf_lines.specs.SplitAgain.{IsKept};
ghost use Rattle.judged_lines.specs.JudgedGames.{game_kind, root_properties, board};
ghost use Rattle.judged_lines.specs.Walk.{walk};
ghost use Rattle.sgf_lines.specs.Script.{has_no_commands, script};
ghost use Rattle.sgf_lines.specs.Replay.{shows, replayed};

pub use judged_lines::laws::judged;
pub use tree_lines::laws::{named, rise};

/// The sgf output of a page with at least one line is a text of the grammar. The whole sgf output of that text is the same bytes.
/// So splitting an output again returns the same output, if it isn't longer than `MAX_LENGTH`.
pub fn again()
    ensures { (games : Games) (text : List ℕ) → Spells games text → (options : Options) (asked : List Line)
        → page options games ≡ Some asked → asked ≢ []
        → (again : Games) × Spells again (output sgf_form asked) × (output sgf_form (lines again) ≡ output sgf_form asked) }
{}

/// Splitting doesn't change what the referee says. The lines of the sgf output of a page are the lines of
/// the page in order, with the same nodes at other places and the same verdicts. An illegal node is named
/// by its place in the output. So a library may be split first and judged later.
pub fn kept()
    ensures { (games others : Games) (text : List ℕ) → Spells games text → (options : Options) (asked : List Line)
        → page options games ≡ Some asked → asked ≢ [] → Spells others (output sgf_form asked) → AllZip IsKept asked (lines others) }
{
    sgf_tree::laws::one();
}

/// One text after another, in list form. Let each of two texts spell games, and let the second not begin with a byte order mark.
/// Then the two joined spell the games of both. Their rows are those of the first text, and then those of the second. In the
/// rows of the second, places are raised by the length of the first text, and game numbers by its number of games.
/// So a database that grows at its end leaves all earlier rows unchanged.
pub fn append()
    ensures spelled { (games others : Games) (text later : List ℕ) → Spells games text → Spells others later
        → ¬ BeginsWithByteOrderMark later → Spells (joined games (raised (length text) others)) (text ++ later) }
    ensures rows { (games others : Games) (text later : List ℕ) → Spells games text → Spells others later → ¬ BeginsWithByteOrderMark later
        → flat_map (record_of list_form) (lines (joined games (raised (length text) others)))
        ≡ flat_map (record_of list_form) (lines games) ++ flat_map (raised_record (length text) (game_count games)) (lines others) }
{
    sgf_tree::laws::append();
}

/// The nodes on the lines of a collection, each taken once, are all its nodes, in file order. A page has at most as many judged
/// nodes as there are nodes on its lines, and at most as many as the collection has nodes. So no run plays more nodes.
pub fn touched()
    ensures places { (games : Games) (text : List ℕ) → Spells games text → touched_places (lines games) ≡ node_places games }
    ensures plays { (games : Games) (text : List ℕ) → Spells games text → (options : Options) (asked : List Line)
        → page options games ≡ Some asked → length (all_judged_places asked) ≤ node_count games }
    ensures page { (asked : List Line) → length (all_judged_places asked) ≤ length (touched_places asked) }
{
    sgf_tree::laws::places_rise();
}

/// Take a page with a limit, and the page of all lines after its last line. If some
/// text spells the collection, the two joined are the page without the limit.
/// So if each run writes a line or more, and begins after the last place of the run before, the outputs join to the whole output.
pub fn pages()
    ensures { (games : Games) (text : List ℕ) → Spells games text → (options : Options) (front : List Line) (last : Line)
        → page options games ≡ Some (front ++ last ∷ []) → (rest : List Line)
        × (page (record options { after = Some (place_of last); limit = None }) games ≡ Some rest)
        × (page (record options { limit = None }) games ≡ Some (front ++ last ∷ rest)) }
{
    sgf_tree::laws::places_rise();
}

/// An engine that begins without a board reads the bytes of a script with commands, and follows it from the top. The script sets
/// the size, and clears the board before the first stone. It plays no stone on a point that isn't empty. The last board is the
/// colouring after all nodes of the judged line, or after the nodes before its first illegal node.
/// So an engine that plays stones by the same rules shows the position that was judged.
pub fn replay()
    ensures { (line : Line) (side : ℕ) → game_kind (root_properties line.nodes) ≡ board side
        → has_no_commands side (walk side line.nodes) ≡ false → replayed (script line) ≡ shows (walk side line.nodes).state.colouring }
{
    go_board::laws::listing();
    go_board::laws::colouring();
    go_board::laws::reaching();
    go_board::laws::setting();
    go_board::laws::clearing();
    go_board::laws::unreaching();
}
