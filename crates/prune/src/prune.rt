// Sweeps over all masks, until one changes nothing.
ghost use Rattle.std.specs.Prelude.{◌≡◌};
ghost use Rattle.walk.specs.code.Arenas.{arena_in};
ghost use Rattle.prune.specs.code.Pruning.{Pruned, PrunedOver};
ghost use Rattle.prune.specs.code.Views.{Swept, SweptOn};

use crate::cut::{Pruning, QUEUE};
use crate::strike::{MOVES_ROW, note_moves};
use arrayvec::ArrayVec;
use rule::part::fill_marks;
use sheet::limits::{MOST_NODES, ROWS};
use walk::arena::Arena;

impl Pruning<'_, '_> {
    // Every node keeps the part of its mask that may stand, by what has fallen when it is met. Says whether a mask had more; the nodes
    // that fell stand in the queue. By index, as a cut writes the masks meanwhile, and not by `any`, which would stop at the first.
    #[tactic(auto, using(crate::proofs::PruneCode::sweeping))]
    fn sweep(&mut self) -> bool
        ensures { Swept self.old self.old.arena.now.level.nodes self.new result }
    {
        self.queue.clear();
        let mut changed = false;
        for k in 0..self.masks.len() {
            changed |= self.cut(k);
        }
        changed
    }

    // One sweep, and a look at the nodes before the few that fell in it. Says whether the sweep changed anything.
    fn sweep_on(&mut self) -> bool
        ensures { SweptOn self.old self.new result }
    {
        if !self.sweep() {
            return false;
        }
        if self.queue.len() <= QUEUE / 2 {
            self.drain();
        }
        true
    }

    // Until a sweep changes nothing.
    fn sweep_all(&mut self)
        ensures { (Pruned (arena_in self.old.arena.now) self.old.masks.now self.new.masks.now)
            × (self.new.masks.ghost_name ≡ self.old.masks.ghost_name) }
    {
        while self.sweep_on() {}
    }
}

// The largest part of the masks that the judging rule allows. Nothing is done where the level is too large or there is not one mask for
// each node, or where it has no action.
#[tactic(auto, using(crate::proofs::PruneCode::pruning))]
pub fn prune(arena: &Arena, masks: &mut [u8])
    ensures { PrunedOver arena.now masks.old masks.new }
{
    if !arena.is_fitted(masks.len()) || arena.level.actions < 1 {
        return;
    }
    let mut marks = [0u16; MOST_NODES];
    let mut moves = [[0u8; MOVES_ROW]; ROWS];
    fill_marks(masks, &mut marks);
    note_moves(arena.moves, &mut moves);
    let mut pruning = Pruning {
        arena,
        moves: &moves,
        masks,
        marks: &mut marks,
        queue: ArrayVec::new(),
    };
    pruning.sweep_all();
}
