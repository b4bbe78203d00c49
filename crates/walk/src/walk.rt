// Which actions are spoilt at a node, and whether all are. Nothing is asked of what the arrays hold.
ghost use Rattle.std.specs.Prelude.{◌≡◌, ◌*◌, ◌/◌, ◌%◌, ◌≤◌, ◌<◌, get_or, IfSome};
ghost use Rattle.theory.specs.Rounds.{bad};
ghost use Rattle.sheet.specs.Limits.{most_positions, most_actions};
ghost use Rattle.sheet.specs.code.Steps.{most_power};
ghost use Rattle.sheet.specs.code.Arrays.{index_entries};
ghost use Rattle.walk.specs.code.Walks.{moving_from};
ghost use Rattle.walk.specs.code.Arenas.{choice_for, has_fallen, outcome_on, last_below};
ghost use Rattle.walk.specs.code.Arenas.{spoilt_at, all_spoilt_at, spoilt, all_spoilt};

use crate::arena::{Arena, Fallen};
use crate::sized::{SizedArena, SizedNode};
use sheet::form::byte;
use sheet::grid::target;
use sheet::kinds::safe_at;

// What an action that is chosen at a node leads to: the oldest action is played and rest is pending after it; the environment's
// moves are on the lines from first to end. No ghost field bounds end: the definitions build choices from any numbers.
#[derive(Clone, Copy)]
pub struct Choice {
    pub action: usize,
    pub rest: usize,
    pub first: usize,
    pub end: usize,
}

impl Arena<'_> {
    fn line_of(&self, q: usize) -> usize
        requires { q < index_entries }
        ensures { (result ≡ get_or self.now.firsts.now q 0) × (result < most_power) }
    {
        usize::from(self.firsts[q])
    }

    // The environment moves from q.
    fn moves_from(&self, action: usize, rest: usize, q: usize) -> Choice
        requires { q < most_positions }
        ensures { (result ≡ moving_from self.now.firsts.now action rest q) × (result.end < most_power) }
    {
        Choice {
            action,
            rest,
            first: self.line_of(q),
            end: self.line_of(q + 1),
        }
    }
}

// A joined word's oldest action and what is pending after it. In 32 bits, of which a level's numbers need no more: 64 are divided by a
// longer way. Where no word is pending nothing is divided.
#[inline(always)]
fn split(joined: usize, words: usize) -> (usize, usize)
    requires { (joined < most_power * most_actions) × (1 ≤ words) × (words ≤ most_power) }
    ensures { (result.0 ≡ joined / words) × (result.1 ≡ joined % words) }
{
    if words == 1 {
        return (joined, 0);
    }
    let divisor = words as u32;
    let word = joined as u32;
    ((word / divisor) as usize, (word % divisor) as usize)
}

impl SizedArena<'_> {
    // Action c joined to the pending word w, at position q; none where it is spoilt before the environment moves. By parity the oldest
    // action is still to be played, or was played first.
    #[tactic(auto, unfolding(crate::specs::code::Walks::choice_at, crate::specs::code::Walks::played_at, crate::specs::code::Walks::moves_after), using(crate::proofs::WalkLaws::safe_small))]
    fn choose(&self, q: usize, w: usize, c: usize) -> Option<Choice>
        requires { (q < most_positions) × (w < self.now.arena.now.level.words) × (c < self.now.arena.now.level.actions) }
        ensures choice { result ≡ choice_for self.now.arena.now q w c }
        ensures small { IfSome result (λ x. (x.end < most_power) × (x.rest < self.now.arena.now.level.words)) }
    {
        let arena = self.arena;
        let joined = w * arena.level.actions + c;
        let (action, rest) = split(joined, arena.level.words);
        if arena.level.odd {
            return Some(arena.moves_from(action, rest, q));
        }
        let reached = usize::from(target(arena.grid, q, action)?);
        if !safe_at(arena.positions, reached) {
            return None;
        }
        Some(arena.moves_from(action, rest, reached))
    }

    // Does the environment's move on this line spoil the choice? At odd delays its action is played after the move.
    #[tactic(auto, unfolding(crate::specs::code::Walks::outcome_at, crate::specs::code::Walks::outcome_by, theory::specs::Delay::with_word, theory::specs::Rounds::bad, sheet::specs::code::Arrays::to_at))]
    fn spoils(&self, fallen: &Fallen, x: Choice, line: usize) -> bool
        requires { (x.rest < self.now.arena.now.level.words) × (line < most_power) }
        ensures { result ≡ bad (has_fallen fallen.now) (outcome_on self.now.arena.now x line) }
    {
        let arena = self.arena;
        let to = usize::from(byte(arena.moves, 2 * line + 1));
        if arena.level.odd {
            // `match`, not `is_none_or`: of a closure that asks `fallen` the proof learns nothing, even by a clause of its own
            !safe_at(arena.positions, to)
                || match target(arena.grid, to, x.action) {
                    Some(reached) => fallen.has(usize::from(reached) * arena.level.words + x.rest),
                    None => true,
                }
        } else {
            fallen.has(to * arena.level.words + x.rest)
        }
    }

    // The last of a choice's lines that spoils it, looked for from the end: it is "nearly always a late line of its position's yard
    // moves" (W-203). Not `find`, whose closure is not compiled into the caller.
    #[inline(always)]
    #[tactic(auto, using(crate::proofs::WalkLaws::searching))]
    fn last_spoiling(&self, fallen: &Fallen, x: Choice) -> Option<usize>
        requires { (x.rest < self.now.arena.now.level.words) × (x.end < most_power) }
        ensures { result ≡ last_below self.now.arena.now fallen.now x x.end }
    {
        for line in (x.first..x.end).rev() {
            if self.spoils(fallen, x, line) {
                return Some(line);
            }
        }
        None
    }

    // Is every action spoilt at node k, which exists? The inner loop goes through an action's lines from the last to the first and
    // leaves for the next action at the first spoiling one that it meets; an action whose lines all pass ends the walk. Document 01: the
    // two loops are labelled.
    #[tactic(auto, using(crate::proofs::WalkLaws::walks))]
    fn all_spoilt_at(&self, fallen: &Fallen, k: usize) -> bool
        requires { k < self.now.arena.now.level.nodes }
        ensures { result ≡ all_spoilt_at self.now.arena.now fallen.now k }
    {
        let level = self.arena.level;
        let q = k / level.words;
        let w = k % level.words;
        'actions: for c in 0..level.actions {
            let Some(x) = self.choose(q, w, c) else {
                continue 'actions;
            };
            'moves: for line in (x.first..x.end).rev() {
                if self.spoils(fallen, x, line) {
                    continue 'actions;
                }
            }
            return false;
        }
        true
    }
}

impl SizedNode<'_> {
    // Is action c, which exists, spoilt here? Inlined for speed, as `last_spoiling` is: as a call, posting a notice that closes little takes
    // 1.7 times as long, and solving at lags 0 and 1 up to twice.
    #[inline(always)]
    #[tactic(auto, using(crate::proofs::WalkLaws::walking))]
    fn spoilt_at(&self, fallen: &Fallen, c: usize) -> bool
        requires { c < self.now.sized.now.arena.now.level.actions }
        ensures { result ≡ spoilt_at self.now.sized.now.arena.now fallen.now self.now.k c }
    {
        let Some(x) = self.sized.choose(self.q, self.w, c) else {
            return true;
        };
        self.sized.last_spoiling(fallen, x).is_some()
    }

    // The same of any action: where there is none, no.
    #[inline(always)]
    #[tactic(auto, unfolding(theory::specs::Fold::both), using(crate::proofs::NodeLaws::guarded))]
    pub fn spoilt(&self, fallen: &Fallen, c: usize) -> bool
        ensures { result ≡ spoilt self.now.sized.now.arena.now fallen.now self.now.k c }
    {
        c < self.sized.arena.level.actions && self.spoilt_at(fallen, c)
    }
}

impl Arena<'_> {
    // Is action c spoilt at node k? Where there is no such node or action, no. Inlined for speed: as a call it takes 1.3 times as long
    // where many lines are looked at.
    #[inline(always)]
    #[tactic(auto, unfolding(crate::specs::code::Nodes::is_node, theory::specs::Fold::both), using(crate::proofs::NodeLaws::guarding))]
    pub fn spoilt(&self, fallen: &Fallen, k: usize, c: usize) -> bool
        ensures { result ≡ spoilt self.now fallen.now k c }
    {
        self.level.is_node(self.positions.len(), k)
            && c < self.level.actions
            && SizedArena { arena: self }.apart(k).spoilt_at(fallen, c)
    }

    // Is every action spoilt at node k? A node that does not exist: no. The test is `spoilt`'s, and one function of both no plainer.
    #[tactic(auto, unfolding(crate::specs::code::Nodes::is_node, theory::specs::Fold::both), using(crate::proofs::NodeLaws::guarding))]
    pub fn all_spoilt(&self, fallen: &Fallen, k: usize) -> bool
        ensures { result ≡ all_spoilt self.now fallen.now k }
    {
        self.level.is_node(self.positions.len(), k)
            && SizedArena { arena: self }.all_spoilt_at(fallen, k)
    }
}
