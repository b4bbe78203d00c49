// Looking again at the nodes before those that have fallen. A sweep would find them too, so this decides nothing but the time: where one
// node falls after another, each is met at once and not a whole sweep later. So nothing is promised of the moves that are noted here, and
// of the masks no more than that bits went out of them which the rule does not allow. No cast here loses anything: a game has at most 256
// positions and 8 actions, and a level at most 16,384 nodes.
ghost use Rattle.std.specs.Prelude.{◌≤◌, ◌<◌};
ghost use Rattle.sheet.specs.Limits.{most_actions, most_nodes};
ghost use Rattle.prune.specs.code.Views.{Goes};

use crate::cut::Pruning;
use sheet::limits::{ROW, ROWS};
use walk::level::Level;

// The bytes of a position's row of moves.
pub(crate) const MOVES_ROW: usize = ROWS / 8;

// For each position a bit for each position from where a move leads to it: a byte for each would take 64 KiB of a caller's stack.
pub type Moves = [[u8; MOVES_ROW]; ROWS];

// Does a move lead from position q to r?
fn is_move(moves: &Moves, q: u8, r: u8) -> bool {
    let row = &moves[usize::from(r)];
    (row[usize::from(q / 8)] >> (q % 8)) % 2 == 1
}

// Notes the moves of the U body.
pub(crate) fn note_moves(u: &[u8], moves: &mut Moves) {
    let (lines, _) = u.as_chunks::<2>();
    for &[q, r] in lines {
        let row = &mut moves[usize::from(r)];
        row[usize::from(q / 8)] |= 1 << (q % 8);
    }
}

// A fallen node's position, and what its word says of the nodes before it: their word is their oldest action times younger, plus rest, and
// the action is the one by which they lead there. Where no word is pending there is none, and that is the oldest one itself. The solver
// has a Spot of its own: what it does with one is promised and proved; here nothing is, and numbers of two bytes keep each product small.
#[derive(Clone, Copy)]
pub struct Spot {
    pub at: u8,
    pub words: u16,
    pub younger: u16,
    pub rest: u16,
    pub action: Option<u8>,
}

// An own cell: a position and an action there.
#[derive(Clone, Copy)]
pub struct Cell {
    pub from: u8,
    pub action: u8,
}

impl Spot {
    fn new(level: Level, j: usize) -> Spot
        requires { (0 < level.words) × (level.words ≤ most_nodes) × (0 < level.actions) × (level.actions ≤ most_actions) }
    {
        let word = j % level.words;
        let action = (word % level.actions) as u8;
        Spot {
            at: (j / level.words % ROWS) as u8,
            words: level.words as u16,
            younger: (level.words / level.actions) as u16,
            rest: (word / level.actions) as u16,
            action: (level.words != 1).then_some(action),
        }
    }

    // The node of a cell: of its position, with its action as the oldest.
    fn node(&self, cell: Cell) -> usize {
        usize::from(cell.from) * usize::from(self.words)
            + usize::from(cell.action) * usize::from(self.younger)
            + usize::from(self.rest)
    }

    // Does that node's mask have the action by which it leads to the fallen one?
    fn leads_by(&self, mask: u8, cell: Cell) -> bool {
        let action = self.action.unwrap_or(cell.action);
        (mask >> (action % 8)) % 2 == 1
    }
}

impl Pruning<'_, '_> {
    // The node of a cell is looked at again, where it has the action that leads to the fallen one.
    fn strike(&mut self, spot: &Spot, cell: Cell)
        ensures { Goes self.old self.new }
    {
        let k = spot.node(cell);
        if k < self.masks.len() && spot.leads_by(self.masks[k], cell) {
            self.cut(k);
        }
    }

    // Odd delays: a move leads to a cell, which leads to the fallen node's position. Not inlined: few cells come here, and the search among
    // all of them keeps its numbers in registers. By index, as the positions' numbers alone are wanted.
    #[inline(never)]
    fn strike_sources(&mut self, spot: &Spot, cell: Cell)
        ensures { Goes self.old self.new }
    {
        for q in 0..self.arena.positions.len() {
            let q = q as u8;
            if is_move(self.moves, q, cell.from) {
                self.strike(spot, Cell { from: q, ..cell });
            }
        }
    }

    // A cell leads to t, where that is a position: the mark of an absent target is more than a byte holds. `target` would test again the
    // bounds that the loop over rows keeps. Even delays: a move leads from there to the fallen node's position.
    fn strike_cell(&mut self, spot: &Spot, cell: Cell, t: u16)
        ensures { Goes self.old self.new }
    {
        let Ok(t) = u8::try_from(t) else {
            return;
        };
        if self.arena.level.odd {
            if t == spot.at {
                self.strike_sources(spot, cell);
            }
        } else if is_move(self.moves, t, spot.at) {
            self.strike(spot, cell);
        }
    }

    // The actions at position s.
    fn strike_row(&mut self, spot: &Spot, s: u8, row: &[u16; ROW])
        ensures { Goes self.old self.new }
    {
        for (h, &t) in row.iter().enumerate() {
            let cell = Cell {
                from: s,
                action: h as u8,
            };
            self.strike_cell(spot, cell, t);
        }
    }

    // All nodes before node j. Not inlined either, for the same reason.
    #[inline(never)]
    fn strike_before(&mut self, j: usize)
        ensures { Goes self.old self.new }
    {
        let arena = self.arena;
        let spot = Spot::new(arena.level, j);
        let grid = arena.grid;
        let n = arena.positions.len();
        for (s, row) in grid[..n].iter().enumerate() {
            self.strike_row(&spot, s as u8, row);
        }
    }

    // All nodes before those in the queue, and before those that join it meanwhile: a `while`, since the queue grows.
    pub(crate) fn drain(&mut self)
        ensures { Goes self.old self.new }
    {
        let mut at: usize = 0;
        while at < self.queue.len() {
            let j = usize::from(self.queue[at]);
            self.strike_before(j);
            at += 1;
        }
    }
}
