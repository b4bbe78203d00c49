// A bit goes out of a node's mask when its action is spoilt; a node whose last bit goes out falls, and joins the queue.
ghost use Rattle.std.specs.Prelude.{◌≡◌, ◌≤◌, ◌<◌, length};
ghost use Rattle.sheet.specs.Limits.{most_actions};
ghost use Rattle.solver.specs.code.Sizes.{largest16};
ghost use Rattle.solver.specs.code.Work.{Lent};

use sheet::form::byte;

// The two buffers, and the nodes that have fallen, in the order of their ranks: so many as tail says. Rank 0 and mask 0 are none, as
// the C areas have it. There are at most MOST_NODES nodes, so that an entry of the queue is cast without a loss. The queue is lent as a
// slice, since its room is the level's number of nodes, which fall tests: a type with a fixed size would test another bound.
#[derive(Drop)]
pub(crate) struct Worklist<'a> {
    pub(crate) ranks: &'a mut [u16],
    pub(crate) masks: &'a mut [u8],
    pub(crate) queue: &'a mut [u16],
    pub(crate) tail: usize,
    ghost lent: { Lent ranks.now masks.now queue.now },
}

// n is the round before, below the largest u16: one bound, asked for where n + 1 is written and on the way there.
impl Worklist<'_> {
    ghost use Rattle.solver.specs.code.Work.{fall_to, mark_to, spoil_all_to};
    ghost use Rattle.solver.specs.code.Views.{listed, Turned};

    // Node k falls in round n + 1. As many nodes as the queue has entries have fallen where it is full: then none is left.
    #[tactic(auto, unfolding(crate::specs::code::Work::fall_to))]
    fn fall(&mut self, n: u16, k: usize)
        requires { (n < largest16) × (k < length self.old.masks.now) }
        ensures { Turned self.old (fall_to n (listed self.old) k) self.new }
    {
        if self.queue.len() <= self.tail {
            return;
        }
        self.ranks[k] = n + 1;
        self.masks[k] = 0;
        self.queue[self.tail] = k as u16;
        self.tail += 1;
    }

    // Action c is spoilt at node k; where there is no such node, nothing happens.
    #[tactic(auto, unfolding(crate::specs::code::Work::mark_to, crate::specs::code::Work::leave_to, theory::specs::Table::bit))]
    pub(crate) fn mark(&mut self, n: u16, c: u8, k: usize)
        requires { (n < largest16) × (c < most_actions) }
        ensures { Turned self.old (mark_to n c (listed self.old) k) self.new }
    {
        let masks = &mut *self.masks;
        let mask = byte(masks, k);
        if (mask >> c) % 2 != 1 {
            return;
        }
        let rest = mask - (1 << c);
        if rest == 0 {
            return self.fall(n, k);
        }
        masks[k] = rest;
    }

    // Every action is spoilt at node k.
    #[tactic(auto, unfolding(crate::specs::code::Work::spoil_all_to))]
    pub(crate) fn spoil_all(&mut self, n: u16, k: usize)
        requires { n < largest16 }
        ensures { Turned self.old (spoil_all_to n (listed self.old) k) self.new }
    {
        let masks = &mut *self.masks;
        if byte(masks, k) != 0 {
            self.fall(n, k);
        }
    }
}
