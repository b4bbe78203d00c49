// The grid of targets that the C body means, with a mark where there is none, as document 01 has it.
ghost use Rattle.std.specs.Prelude.{◌≡◌};
ghost use Rattle.sheet.specs.code.Arrays.{grid_of, target_from, target_at};

use crate::limits::{ABSENT, ROW, ROWS};

// A row for each position, a target for each action, ABSENT where there is none.
pub type Grid = [[u16; ROW]; ROWS];

// A line with an action that no row has is left out, so the function is total.
#[tactic(auto, using(crate::proofs::GridLaws::line_by_line))]
pub fn grid_of(c: &[u8]) -> Grid
    ensures { result ≡ grid_of c.now }
{
    let (lines, _) = c.as_chunks::<3>();
    let mut grid = [[ABSENT; ROW]; ROWS];
    for &[from, action, to] in lines {
        let action = usize::from(action);
        if action < ROW {
            grid[usize::from(from)][action] = u16::from(to);
        }
    }
    grid
}

// The target of action x at position q; there is none where the grid marks it as absent, nor outside the grid. The grid keeps a mark, as
// document 01 has it. Callers get an `Option`; gates, which writes a grid, and prune, which passes over whole rows, read marks.
#[tactic(auto, unfolding(crate::specs::code::Arrays::target_at, crate::specs::code::Arrays::unmark, theory::specs::Fold::both))]
pub fn target(grid: &Grid, q: usize, x: usize) -> Option<u16>
    ensures { target_from result ≡ target_at grid.now q x }
{
    if ROWS <= q || ROW <= x {
        return None;
    }
    let mark = grid[q][x];
    (mark != ABSENT).then_some(mark)
}
