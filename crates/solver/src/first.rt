// Round 1: the unsafe nodes of the right side fall, and the safe ones have every action.
ghost use Rattle.std.specs.Prelude.{◌≡◌, ◌+◌, ◌*◌, ◌<◌, length};
ghost use Rattle.solver.specs.code.First.{row_falls, row_mask};

use crate::mark::Worklist;
use sheet::kinds::safe_at;
use walk::arena::Arena;
use walk::sized::SizedArena;

// Do the nodes of position q fall in round 1? With row_mask one line each, no plainer as one.
#[tactic(auto, unfolding(crate::specs::code::First::row_falls, theory::specs::Fold::both))]
fn row_falls(arena: &Arena, q: usize) -> bool
    ensures { result ≡ row_falls arena.now.level.odd arena.now.positions.now q }
{
    arena.on_right(q) && !safe_at(arena.positions, q)
}

// The mask of the nodes of position q; full is that of all actions, which is worked out once.
#[tactic(auto, unfolding(crate::specs::code::First::row_mask, theory::specs::Fold::both))]
fn row_mask(arena: &Arena, full: u8, q: usize) -> u8
    ensures { result ≡ row_mask arena.now.level.odd arena.now.positions.now full q }
{
    if arena.on_right(q) && safe_at(arena.positions, q) {
        full
    } else {
        0
    }
}

impl Worklist<'_> {
    ghost use Rattle.solver.specs.code.Views.{Same, PlacedTo};

    // The nodes of position q.
    #[tactic(auto, using(crate::proofs::FirstLaws::placing))]
    fn first_row(&mut self, sized: &SizedArena, full: u8, q: usize)
        requires { (q < length sized.now.arena.now.positions.now) × (PlacedTo sized.now.arena.now full (q * sized.now.arena.now.level.words) self.old) }
        ensures { (Same self.old self.new) × (PlacedTo sized.now.arena.now full (q * sized.now.arena.now.level.words + sized.now.arena.now.level.words) self.new) }
    {
        let arena = sized.arena;
        let falls = row_falls(arena, q);
        let mask = row_mask(arena, full, q);
        let words = arena.level.words;
        let start = q * words;
        // by index, in one pass: a node is an entry of both buffers, and may go into the queue; with fill there would be three
        for k in start..start + words {
            self.masks[k] = mask;
            if falls {
                self.ranks[k] = 1;
                self.queue[self.tail] = k as u16;
                self.tail += 1;
            } else {
                self.ranks[k] = 0;
            }
        }
    }

    // All nodes.
    #[tactic(auto, using(crate::proofs::FirstLaws::all_placing))]
    pub(crate) fn first(&mut self, sized: &SizedArena, full: u8)
        requires { (length self.old.masks.now ≡ sized.now.arena.now.level.nodes) × (self.old.tail ≡ 0) }
        ensures { (Same self.old self.new) × (PlacedTo sized.now.arena.now full sized.now.arena.now.level.nodes self.new) }
    {
        for q in 0..sized.arena.positions.len() {
            self.first_row(sized, full, q);
        }
    }
}
