// The rounds, in place in the lent rank buffer, which has one entry for each node.
ghost use Rattle.std.specs.Prelude.{◌≡◌, ◌≤◌, ◌<◌, length};
ghost use Rattle.walk.specs.code.Arenas.{arena_in};
ghost use Rattle.rounds.specs.code.Falling.{first_rank, RanksLeftIn};

use sheet::kinds::safe_at;
use walk::arena::{Arena, Fallen};
use walk::sized::SizedArena;

// A node's rank after round 1; 0 is none, as walk's Fallen has it. One line, as solver's row_falls, and no plainer as one function.
#[tactic(auto, unfolding(crate::specs::code::Falling::first_rank, theory::specs::Fold::both))]
fn first_rank(sized: &SizedArena, k: usize) -> u16
    ensures { result ≡ first_rank sized.now.arena.now.positions.now sized.now.arena.now.level k }
{
    let arena = sized.arena;
    let q = k / arena.level.words;
    u16::from(arena.on_right(q) && !safe_at(arena.positions, q))
}

// An arena whose level is small, and a rank for each of its nodes.
#[derive(Drop)]
struct Ranking<'a, 'r> {
    sized: &'a SizedArena<'a>,
    ranks: &'r mut [u16],
    ghost nodes: { length ranks.now ≡ sized.now.arena.now.level.nodes },
}

impl Ranking<'_, '_> {
    ghost use Rattle.rounds.specs.code.Falling.{falls_to, AtMost};
    ghost use Rattle.rounds.specs.code.Views.{FirstLeft, RoundLeft, AllLeft};

    // Round 1: the unsafe nodes of the right side.
    #[tactic(auto, using(crate::proofs::RoundLaws::filling))]
    fn first_round(&mut self)
        ensures { FirstLeft self.old self.new }
    {
        let sized = self.sized;
        for (k, rank) in self.ranks.iter_mut().enumerate() {
            *rank = first_rank(sized, k);
        }
    }

    // Does node k fall now, to the nodes that have fallen in rounds 1 to n?
    #[tactic(auto, unfolding(crate::specs::code::Falling::falls_to, walk::specs::code::Levels::arena_of, sheet::specs::code::Arrays::view_of, theory::specs::Fold::both), using(walk::proofs::NodeLaws::node_tested))]
    fn falls_now(&self, n: u16, k: usize) -> bool
        requires { k < self.now.sized.now.arena.now.level.nodes }
        ensures { result ≡ falls_to (arena_in self.now.sized.now.arena.now) n self.now.ranks.now k }
    {
        let arena = self.sized.arena;
        let fallen = Fallen {
            marks: self.ranks,
            last: n,
        };
        self.ranks[k] == 0 && arena.on_right(k / arena.level.words) && arena.all_spoilt(&fallen, k)
    }

    // Round n + 1, after n rounds. A node that falls now has rank n + 1, so it does not count as fallen until the next round. Says
    // whether a node fell.
    #[tactic(auto, using(crate::proofs::RoundLaws::rounding))]
    fn round(&mut self, n: u16) -> bool
        requires { (AtMost n self.old.ranks.now) × (1 ≤ n) × (n < 65535) }
        ensures { RoundLeft self.old n self.new result }
    {
        let mut any = false;
        // by index, since the walk reads all ranks while one is written
        for k in 0..self.ranks.len() {
            if self.falls_now(n, k) {
                self.ranks[k] = n + 1;
                any = true;
            }
        }
        any
    }

    // All rounds, and their number: the last one in which a node fell, or round 1. Document 01: the loop yields its answer by break.
    #[tactic(auto, using(crate::proofs::RoundLaws::all_rounds))]
    fn all_rounds(&mut self) -> u16
        ensures { AllLeft self.old self.new result }
    {
        self.first_round();
        let mut n: u16 = 1;
        'rounds: loop {
            if !self.round(n) {
                break 'rounds n;
            }
            n += 1;
        }
    }
}

// All rounds for any level and buffer: no round is done, so their number is 0, where the level is too large or the buffer has not one
// entry for each node.
#[tactic(auto, unfolding(crate::specs::code::Falling::Ranked), using(walk::proofs::NodeLaws::fitted_level))]
pub fn rounds(arena: &Arena, ranks: &mut [u16]) -> u16
    ensures { RanksLeftIn arena.now ranks.old ranks.new result }
{
    if !arena.is_fitted(ranks.len()) {
        return 0;
    }
    let sized = SizedArena { arena };
    Ranking {
        sized: &sized,
        ranks,
    }
    .all_rounds()
}
