// How many positions lie on some play from the start: a search from it that looks at each position, and so at each line, once.
ghost use Rattle.std.specs.Prelude.{◌≡◌, ◌<◌};
ghost use Rattle.theory.specs.Reach.{reached};
ghost use Rattle.sheet.specs.SheetGame.{game_of};
ghost use Rattle.reader.specs.code.Steps.{Checked};
ghost use Rattle.sheet.specs.code.Steps.{most_power};
ghost use Rattle.reader.specs.code.Reaching.{Queued, Grown, is_position, by_action_in, by_line};

use arrayvec::ArrayVec;
use gates::hold::grid_for;
use gates::kind::is_holding;
use sheet::form::{body, byte};
use sheet::grid::{Grid, target};
use sheet::limits::ROWS;
use sheet::moves::first_lines;

// The positions found so far: each has a mark, and stands among the entries once, in the order found. No ghost field says so: it
// would keep that an entry stands somewhere and not where, and the proof asks where.
#[derive(Drop)]
struct Queue {
    marks: [bool; ROWS],
    entries: ArrayVec<u8, ROWS>,
}

impl Queue {
    // A position joins, unless it has a mark; there is none at ROWS or above, so the cast loses nothing.
    #[tactic(auto, using(crate::proofs::ReachLaws::joining))]
    fn join(&mut self, t: usize)
        requires { Queued self.old }
        ensures { Grown (is_position t) self.old self.new }
    {
        if t < ROWS && !self.marks[t] {
            self.marks[t] = true;
            self.entries.push(t as u8);
        }
    }

    // The targets of q join. Here and below no chain of iterators: each step writes the queue.
    #[tactic(auto, using(crate::proofs::ReachLaws::targeting))]
    fn join_targets(&mut self, grid: &Grid, actions: usize, q: usize)
        requires { Queued self.old }
        ensures { Grown (by_action_in grid.now q actions) self.old self.new }
    {
        for x in 0..actions {
            if let Some(t) = target(grid, q, x) {
                self.join(usize::from(t));
            }
        }
    }

    // What the lines of the U body from first up to end lead to joins.
    #[tactic(auto, using(crate::proofs::ReachLaws::lining))]
    fn join_moves(&mut self, u: &[u8], first: usize, end: usize)
        requires { (Queued self.old) × (end < most_power) }
        ensures { Grown (by_line u.now first end) self.old self.new }
    {
        for line in first..end {
            self.join(usize::from(byte(u, 2 * line + 1)));
        }
    }
}

// The number of positions on plays of a sheet that passes checks 1 to 6 and 24.
#[tactic(auto, using(crate::proofs::ReachLaws::reaching))]
pub(crate) fn reach(s: &[u8]) -> usize
    requires { Checked s.now }
    ensures { result ≡ reached (game_of s.now) }
{
    let h = body(s, 0);
    let u = body(s, 3);
    let actions = usize::from(byte(h, 1));
    let grid = grid_for(body(s, 2), actions, is_holding(s));
    let firsts = first_lines(u);
    let mut queue = Queue {
        marks: [false; ROWS],
        entries: ArrayVec::new(),
    };
    queue.join(usize::from(byte(h, 0)));
    // Not a `for`: the queue grows while its entries are looked at.
    let mut done = 0;
    while done < queue.entries.len() {
        let q = usize::from(queue.entries[done]);
        queue.join_targets(&grid, actions, q);
        queue.join_moves(u, usize::from(firsts[q]), usize::from(firsts[q + 1]));
        done += 1;
    }
    queue.entries.len()
}
