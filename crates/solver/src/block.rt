// Nodes at which every action is spoilt whatever falls: the oldest action is absent or an unsafe position is passed. They fall in
// round 2.
ghost use Rattle.std.specs.Prelude.{◌≡◌, ◌+◌, ◌*◌, ◌≤◌, ◌<◌, false};
ghost use Rattle.walk.specs.code.Arenas.{arena_in};
ghost use Rattle.sheet.specs.Limits.{most_nodes};
ghost use Rattle.solver.specs.code.Sizes.{largest16};
ghost use Rattle.solver.specs.code.Work.{spoil_row_to};
ghost use Rattle.solver.specs.code.Sweep.{Fitted};

use crate::mark::Worklist;
use sheet::grid::target;
use sheet::kinds::safe_at;
use walk::arena::Fallen;
use walk::sized::SizedArena;

// The nodes of an arena by rows: a row has a position, an oldest action and all younger words.
#[derive(Clone, Copy)]
pub(crate) struct Rows<'a> {
    pub(crate) sized: &'a SizedArena<'a>,
    pub(crate) younger: usize,
    ghost fits: { Fitted sized.now.arena.now.level younger },
}

impl Rows<'_> {
    ghost use Rattle.theory.specs.Rounds.{spoilt_by};
    ghost use Rattle.solver.specs.code.Block.{blocked_at, block_to, blocks_to};
    ghost use Rattle.solver.specs.code.Views.{listed, row_count, Turned};

    // Has the oldest action of row b an absent outcome, whatever falls?
    #[tactic(auto, using(crate::proofs::BlockCode::blocking), unfolding(crate::specs::code::Block::no_way))]
    fn fails(&self, b: usize) -> bool
        requires { b < row_count self.now.sized.now.arena.now }
        ensures { result ≡ spoilt_by (arena_in self.now.sized.now.arena.now) (λ j. false) (b * self.now.younger) 0 }
    {
        let arena = self.sized.arena;
        let level = arena.level;
        if level.odd {
            let nothing = Fallen {
                marks: &[],
                last: 0,
            };
            return arena.spoilt(&nothing, b * self.younger, 0);
        }
        let to = target(arena.grid, b / level.actions, b % level.actions);
        to.is_none_or(|q| !safe_at(arena.positions, usize::from(q)))
    }

    // Is row b blocked: does its oldest action fail, at a safe position of the right side?
    #[tactic(auto, using(crate::proofs::BlockCode::blocking), unfolding(crate::specs::code::Block::blocked_at, theory::specs::Fold::both))]
    fn blocked(&self, b: usize) -> bool
        requires { b < row_count self.now.sized.now.arena.now }
        ensures { result ≡ blocked_at (arena_in self.now.sized.now.arena.now) (b * self.now.younger) }
    {
        let arena = self.sized.arena;
        let q = b / arena.level.actions;
        arena.on_right(q) && safe_at(arena.positions, q) && self.fails(b)
    }

    // Row b falls in round 2 if it is blocked.
    #[tactic(auto, using(crate::proofs::BlockCode::blocks))]
    fn block_row(&self, b: usize, work: &mut Worklist)
        requires { b < row_count self.now.sized.now.arena.now }
        ensures { Turned work.old (block_to (arena_in self.now.sized.now.arena.now) self.now.younger (listed work.old) b) work.new }
    {
        if self.blocked(b) {
            work.spoil_row(1, b * self.younger, self.younger);
        }
    }

    // All blocked rows fall in round 2.
    #[tactic(auto, using(crate::proofs::MarkLaws::steps_start))]
    pub(crate) fn block(&self, work: &mut Worklist)
        ensures { Turned work.old (blocks_to (arena_in self.now.sized.now.arena.now) self.now.younger (listed work.old) 0
            (row_count self.now.sized.now.arena.now)) work.new }
    {
        let arena = self.sized.arena;
        // by index: a row is a number, and no array has an entry for it; a type for it would say no more than the bound
        for b in 0..arena.positions.len() * arena.level.actions {
            self.block_row(b, work);
        }
    }
}

impl Worklist<'_> {
    ghost use Rattle.solver.specs.code.Views.{listed, Turned};

    // Every action is spoilt at so many nodes, from k on.
    #[tactic(auto, using(crate::proofs::MarkLaws::steps_start))]
    fn spoil_row(&mut self, n: u16, k: usize, count: usize)
        requires { (n < largest16) × (k + count ≤ most_nodes) }
        ensures { Turned self.old (spoil_row_to n (listed self.old) k count) self.new }
    {
        for i in k..k + count {
            self.spoil_all(n, i);
        }
    }
}
