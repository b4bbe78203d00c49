// Bits go out of a node's mask where the judging rule does not allow them. A node whose mask is gone is marked as fallen from then on.
ghost use Rattle.std.specs.Prelude.{◌≡◌, ◌≤◌, ◌<◌, length};
ghost use Rattle.walk.specs.code.Arenas.{IsSized};
ghost use Rattle.prune.specs.code.Pruning.{Shown};

use crate::strike::Moves;
use arrayvec::ArrayVec;
use rule::part::{allowed_part, mark_for};
use walk::arena::Arena;

// The nodes of which a queue tells. Where more fall in one sweep than half of them, another sweep costs less than a look at all nodes
// before them.
pub(crate) const QUEUE: usize = 4096;

// The masks that bits go out of, over a game's arrays; the marks by which the walk counts a node without a mask as fallen; and a queue of
// nodes that fell, as far as it has room, which only tells which nodes are worth another look. The level is small and has an action, and
// each node has a mask and a mark that shows it.
#[derive(Drop)]
pub struct Pruning<'a, 'm> {
    pub arena: &'a Arena<'a>,
    pub moves: &'a Moves,
    pub masks: &'m mut [u8],
    pub marks: &'m mut [u16],
    pub queue: ArrayVec<u16, QUEUE>,
    ghost sized: { IsSized arena.now },
    ghost some_action: { 0 < arena.now.level.actions },
    ghost nodes: { length masks.now ≡ arena.now.level.nodes },
    ghost marks_room: { arena.now.level.nodes ≤ length marks.now },
    ghost shown: { Shown masks.now marks.now },
}

impl Pruning<'_, '_> {
    ghost use Rattle.prune.specs.code.Views.{Left, CutOnce};

    // What is left of node k's mask is stored. A node whose mask is gone joins the queue. The mask and its mark are written through
    // references of their own, since after a write through self's alone the marks would have to show the masks at once. A node's number is
    // below 16,384, so the cast loses nothing.
    #[tactic(auto, using(crate::proofs::PruneCode::leaving))]
    fn leave(&mut self, k: usize, rest: u8)
        requires { k < self.old.arena.now.level.nodes }
        ensures { Left self.old k rest self.new }
    {
        let masks = &mut *self.masks;
        let marks = &mut *self.marks;
        masks[k] = rest;
        marks[k] = mark_for(usize::from(rest));
        if rest == 0 && !self.queue.is_full() {
            self.queue.push(k as u16);
        }
    }

    // Node k keeps the part of its mask that may stand by the marks. Says whether it had more. A part of a mask has at most 8 bits, so the
    // cast loses nothing.
    #[tactic(auto, using(crate::proofs::PruneCode::cutting))]
    pub(crate) fn cut(&mut self, k: usize) -> bool
        requires { k < self.old.arena.now.level.nodes }
        ensures { CutOnce self.old k self.new result }
    {
        let mask = self.masks[k];
        if mask == 0 {
            return false;
        }
        let arena = self.arena;
        let marks = &mut *self.marks;
        let rest = allowed_part(arena, marks, k, usize::from(mask)) as u8;
        if rest == mask {
            return false;
        }
        self.leave(k, rest);
        true
    }
}
