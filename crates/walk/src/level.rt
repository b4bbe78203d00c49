// The numbers of one delay, which every function over its nodes takes, and which nodes there are.
ghost use Rattle.std.specs.Prelude.{◌≡◌};
ghost use Rattle.walk.specs.code.Nodes.{is_sized, is_node};
ghost use Rattle.walk.specs.code.Levels.{level_to};

use sheet::limits::{MOST_NODES, MOST_POSITIONS, MOST_POWER, ROW};
use sheet::size::power;

// words: the number of pending words. A node is a position times words, plus its pending word. odd: a bool and no type of its own, since
// the delay comes as a number, and theory's definitions take it so.
#[derive(Clone, Copy)]
pub struct Level {
    pub start: usize,
    pub actions: usize,
    pub words: usize,
    pub odd: bool,
    pub nodes: usize,
}

// The numbers of a delay; positions and powers are cut off far above what a sheet has, so that no product wraps.
#[tactic(auto, unfolding(theory::specs::Delay::odd))]
pub fn level_at(positions: usize, start: u8, actions: u8, delay: u8) -> Level
    ensures { result ≡ level_to positions start actions delay }
{
    let words = power(actions, usize::from(delay) / 2);
    Level {
        start: usize::from(start),
        actions: usize::from(actions),
        words,
        odd: delay % 2 == 1,
        nodes: positions.min(MOST_POWER) * words,
    }
}

impl Level {
    // Do the numbers fit each other, and so many positions? The product is formed last, where it cannot wrap.
    #[tactic(auto, unfolding(crate::specs::code::Nodes::is_sized, theory::specs::Fold::both))]
    pub fn is_sized(self, positions: usize) -> bool
        ensures { result ≡ is_sized positions self }
    {
        positions <= MOST_POSITIONS
            && self.actions <= ROW
            && 1 <= self.words
            && self.words <= MOST_NODES
            && self.nodes <= MOST_NODES
            && self.nodes == positions * self.words
    }

    // Is there a node k at so many positions?
    #[tactic(auto, unfolding(crate::specs::code::Nodes::is_node, theory::specs::Fold::both))]
    pub fn is_node(self, positions: usize, k: usize) -> bool
        ensures { result ≡ is_node positions self k }
    {
        self.is_sized(positions) && k < self.nodes
    }
}
