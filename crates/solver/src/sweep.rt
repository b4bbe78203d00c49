// All nodes of one rank are spread, in the order of the queue.
ghost use Rattle.std.specs.Prelude.{◌≡◌, ◌-◌, ◌≤◌, ◌<◌, length};
ghost use Rattle.solver.specs.code.Sizes.{largest16};
ghost use Rattle.solver.specs.code.Sweep.{Fitted, spot_at, spread_to, sweep_to};

use crate::index::Index;
use crate::mark::Worklist;
use crate::spread::Spot;
use std::ops::Range;
use walk::level::Level;

// The nodes of rank n are swept, at a level with so many younger words.
#[derive(Clone, Copy)]
pub struct Round {
    pub level: Level,
    pub younger: usize,
    pub n: u16,
    ghost fits: { Fitted level younger },
    ghost few: { n < largest16 },
}

impl Round {
    ghost use Rattle.solver.specs.code.Views.{indexed, listed, spotted, Noted, Turned};

    // The action and the younger actions of node j's word. There are at most 8 actions, so that one is cast without a loss.
    fn spot(self, j: usize) -> Spot
        ensures { spotted result ≡ spot_at self.level self.younger self.n j }
    {
        let level = self.level;
        let word = j % level.words;
        Spot {
            round: self,
            word,
            rest: word / level.actions,
            action: (word % level.actions) as u8,
        }
    }

    // Node j, which fell in round n.
    #[tactic(auto, using(crate::proofs::SweepLaws::spread_odd_is, crate::proofs::SweepLaws::spread_even_is))]
    fn spread(self, index: &Index, j: usize, seen: &mut [bool], work: &mut Worklist)
        requires { Noted index.now self.level self.younger seen.old work.old }
        ensures calls { Turned work.old (spread_to (indexed index.now) self.level self.younger self.n (listed work.old) j) work.new }
        ensures notes { Noted index.now self.level self.younger seen.new work.new }
    {
        let spot = self.spot(j);
        let q = j / self.level.words;
        if self.level.odd {
            index.spread_odd(spot, q, work);
        } else {
            index.spread_even(spot, q, seen, work);
        }
    }

    // The nodes of rank n, which are these entries of the queue.
    pub(crate) fn sweep(
        self,
        index: &Index,
        entries: Range<usize>,
        seen: &mut [bool],
        work: &mut Worklist,
    )
        requires { (entries.end ≤ length work.old.queue.now) × (Noted index.now self.level self.younger seen.old work.old) }
        ensures calls { Turned work.old (sweep_to (indexed index.now) self.level self.younger self.n (listed work.old) entries.start (entries.end - entries.start))
            work.new }
        ensures notes { Noted index.now self.level self.younger seen.new work.new }
    {
        // by index: the queue grows while it is read
        for at in entries {
            let j = usize::from(work.queue[at]);
            self.spread(index, j, seen, work);
        }
    }
}
