// What the walk goes over: the arrays of a game at one delay, and which nodes have fallen.
ghost use Rattle.std.specs.Prelude.{◌≡◌, length};
ghost use Rattle.theory.specs.Delay.{on_right};
ghost use Rattle.sheet.specs.Kinds.{controller_at};
ghost use Rattle.walk.specs.code.Arenas.{has_fallen};
ghost use Rattle.walk.specs.code.Nodes.{is_fitted};

use crate::level::Level;
use sheet::grid::Grid;
use sheet::kinds::on_right;
use sheet::limits::INDEX;

// positions: the P body. grid: the targets that the C body means. moves: the U body, as bytes, since the definitions have line i at 2 i.
// firsts: the index of its first lines.
#[derive(Clone, Copy)]
pub struct Arena<'a> {
    pub positions: &'a [u8],
    pub grid: &'a Grid,
    pub moves: &'a [u8],
    pub firsts: &'a [u16; INDEX],
    pub level: Level,
}

impl Arena<'_> {
    // Can the nodes at q fall: are they the controller's at an even delay, the environment's at an odd one?
    pub fn on_right(&self, q: usize) -> bool
        ensures { result ≡ on_right self.now.level.odd (controller_at self.now.positions.now) q }
    {
        on_right(self.positions, self.level.odd, q)
    }

    // Is the level small enough to walk, and does a buffer of so many entries have one for each node?
    #[tactic(auto, unfolding(crate::specs::code::Nodes::is_fitted, theory::specs::Fold::both))]
    pub fn is_fitted(&self, entries: usize) -> bool
        ensures { result ≡ is_fitted (length self.now.positions.now) self.now.level entries }
    {
        self.level.is_sized(self.positions.len()) && entries == self.level.nodes
    }
}

// A node whose mark is 1 to last has fallen. A rank or a mark of 0 is none, as the C areas have it. No part of the arena, since rounds and
// sweeps write the marks between two questions.
#[derive(Clone, Copy)]
pub struct Fallen<'a> {
    pub marks: &'a [u16],
    pub last: u16,
}

impl Fallen<'_> {
    #[tactic(auto, unfolding(crate::specs::code::Walks::fallen_by, theory::specs::Fold::both))]
    pub(crate) fn has(&self, node: usize) -> bool
        ensures { result ≡ has_fallen self.now node }
    {
        let mark = self.marks.get(node).copied().unwrap_or(0);
        mark != 0 && mark <= self.last
    }
}
