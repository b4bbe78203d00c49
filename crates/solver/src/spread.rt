// A fallen node spoils an action of each node that it is an outcome of. Those are found by two chains: of the lines of the U body
// by their position reached, and of the grid's cells by their target.
ghost use Rattle.std.specs.Prelude.{◌≡◌, ◌≤◌, ◌<◌};
ghost use Rattle.sheet.specs.Limits.{most_moves, most_positions};
ghost use Rattle.solver.specs.code.Sizes.{most_cells, word_bound};
ghost use Rattle.solver.specs.code.Spread.{spot, Spotted, caller_at, word_at, source_at};

use crate::index::Index;
use crate::mark::Worklist;
use crate::sweep::Round;
use sheet::form::byte;
use sheet::limits::{ROW, ROWS};

// The cells of the grid.
pub const CELLS: usize = ROWS * ROW;

// What falls with a node in a round: an action, chosen where a word's younger actions are rest; the node's word is both. The word of
// a node before is its oldest action times younger, plus rest.
#[derive(Clone, Copy)]
pub struct Spot {
    pub round: Round,
    pub word: usize,
    pub rest: usize,
    pub action: u8,
    ghost fits: { Spotted (spot round.n round.level.words round.younger round.level.actions word rest action) },
}

impl Spot {
    ghost use Rattle.solver.specs.code.Views.{spotted};

    // The node of a cell's position, whose oldest action is the cell's.
    #[tactic(auto, unfolding(crate::specs::code::Spread::caller_at, crate::specs::code::Spread::word_at))]
    fn caller_at(self, x: usize) -> usize
        requires { x < most_cells }
        ensures { result ≡ caller_at (spotted self) x }
    {
        x / ROW * self.round.level.words + self.word_at(x)
    }

    // The node of a line's position before the move.
    #[tactic(auto, unfolding(crate::specs::code::Spread::source_at))]
    fn source_at(self, u: &[u8], word: usize, i: usize) -> usize
        requires { (word < word_bound) × (i < most_moves) }
        ensures { result ≡ source_at u.now (spotted self) word i }
    {
        usize::from(byte(u, 2 * i)) * self.round.level.words + word
    }

    // The word with a cell's action as its oldest.
    #[tactic(auto, unfolding(crate::specs::code::Spread::word_at))]
    fn word_at(self, x: usize) -> usize
        ensures { (result ≡ word_at (spotted self) x) × (result < word_bound) }
    {
        x % ROW * self.round.younger + self.rest
    }
}

// Callers and sources, and the two parities, have a function of two lines each: no plainer as one.
impl Index<'_> {
    ghost use Rattle.solver.specs.code.Views.{callers_of, sources_of, even_nodes_of, odd_nodes_of, Marked, Noted};

    // At the nodes whose oldest action, played at their position, leads to target t.
    #[tactic(auto, unfolding(crate::specs::code::Spread::callers))]
    fn mark_callers(&self, spot: Spot, t: usize, work: &mut Worklist)
        ensures { Marked work.old spot (callers_of self.now spot t) work.new }
    {
        for x in self.leading.places(t) {
            work.mark(spot.round.n, spot.action, spot.caller_at(x));
        }
    }

    // At the nodes with this word, from whose position a move reaches q.
    #[tactic(auto, unfolding(crate::specs::code::Spread::sources))]
    fn mark_sources(&self, spot: Spot, word: usize, q: usize, work: &mut Worklist)
        requires { word < word_bound }
        ensures { Marked work.old spot (sources_of self.now spot word q) work.new }
    {
        for i in self.reaching.places(q) {
            work.mark(
                spot.round.n,
                spot.action,
                spot.source_at(self.moves, word, i),
            );
        }
    }

    // The callers of target t, once for each word: nothing is left to do where it was done before. It is noted as done only where the
    // queue has room: every bit is out then. By index: with get_mut the proof did not close.
    fn mark_target(&self, spot: Spot, t: usize, seen: &mut [bool], work: &mut Worklist)
        requires { (t < most_positions)
            × (Noted self.now spot.round.level spot.round.younger seen.old work.old) }
        ensures calls { Marked work.old spot (callers_of self.now spot t) work.new }
        ensures notes { Noted self.now spot.round.level spot.round.younger seen.new work.new }
    {
        let s = t * spot.round.level.words + spot.word;
        if s < seen.len() && seen[s] {
            return;
        }
        self.mark_callers(spot, t, work);
        if work.queue.len() <= work.tail {
            return;
        }
        if s < seen.len() {
            seen[s] = true;
        }
    }

    // Even delays: a caller's action leads to a position from where a move leads to the fallen node's, q. index, seen and work go together
    // at even delays alone, and are lent apart.
    #[tactic(auto, unfolding(crate::specs::code::Spread::even_nodes))]
    pub(crate) fn spread_even(&self, spot: Spot, q: usize, seen: &mut [bool], work: &mut Worklist)
        requires { Noted self.now spot.round.level spot.round.younger seen.old work.old }
        ensures calls { Marked work.old spot (even_nodes_of self.now spot q) work.new }
        ensures notes { Noted self.now spot.round.level spot.round.younger seen.new work.new }
    {
        for i in self.reaching.places(q) {
            self.mark_target(spot, usize::from(byte(self.moves, 2 * i)), seen, work);
        }
    }

    // Odd delays: a move leads to a position from where the oldest action leads to the fallen node's, q.
    #[tactic(auto, unfolding(crate::specs::code::Spread::odd_nodes))]
    pub(crate) fn spread_odd(&self, spot: Spot, q: usize, work: &mut Worklist)
        ensures { Marked work.old spot (odd_nodes_of self.now spot q) work.new }
    {
        for x in self.leading.places(q) {
            self.mark_sources(spot, spot.word_at(x), x / ROW, work);
        }
    }
}
