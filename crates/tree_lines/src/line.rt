//! What is shown of a line of play.

ghost use Rattle.std.specs.Prelude.{◌≡◌, ◌<◌, length};

/// A line of play as a cursor returns it, from the root of a game to a leaf. No call on it takes memory.
#[derive(Clone, Copy)]
pub struct LineRef<'l> {
    pub(crate) path: &'l [usize],
    pub(crate) game: usize,
    pub(crate) place: u64,
    ghost some_node: { 0 < length path.now },
}

impl<'l> LineRef<'l> {
    ghost use Rattle.tree_lines.specs.Paths.{leaf_of};
    ghost use Rattle.tree_lines.specs.Cursor.{shown};

    /// The numbers of its nodes, from 0 in file order. The root comes first, and there is at least one node.
    pub fn path(&self) -> &'l [usize]
        ensures numbers { result.now ≡ (shown self.now).path.numbers }
        ensures some_node { 0 < length result.now }
    {
        self.path
    }

    /// The number of its last node, a leaf.
    pub fn leaf(&self) -> usize
        ensures { result ≡ leaf_of (shown self.now).path }
    {
        let path = self.path();
        path[path.len() - 1]
    }

    /// The number of its game, from 1.
    pub fn game(&self) -> usize
        ensures { result ≡ (shown self.now).path.game_number }
    {
        self.game
    }

    /// Its place: the offset in bytes, from 0, of the `;` of its last node.
    pub fn place(&self) -> u64
        ensures { result ≡ (shown self.now).place }
    {
        self.place
    }
}
