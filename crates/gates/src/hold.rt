// The grid of targets where gates hold: each missing action does what action 0 does.
ghost use Rattle.std.specs.Prelude.{◌≡◌, ◌<◌, length};
ghost use Rattle.sheet.specs.Limits.{most_actions};
ghost use Rattle.gates.specs.code.Held.{cell_held, row_held, grid_held, held_grid};

use sheet::grid::{Grid, grid_of};
use sheet::limits::{ABSENT, ROW};
use std::array;

// The target of action x, by the marks as they stand, since a grid is written here. Where it is missing, and x is one of the game's
// actions, that of action 0, which may be missing too.
#[tactic(auto, unfolding(crate::specs::code::Held::cell_held, theory::specs::Fold::both))]
fn held_cell(row: &[u16; ROW], actions: usize, x: usize) -> u16
    requires { x < most_actions }
    ensures { result ≡ cell_held actions row.now x }
{
    if row[x] == ABSENT && x < actions {
        row[0]
    } else {
        row[x]
    }
}

// A row without a target of action 0 stays as it is; so do the many past the last position.
#[tactic(auto, using(crate::proofs::HoldLaws::row_still))]
fn held_row(row: &[u16; ROW], actions: usize) -> [u16; ROW]
    ensures { result ≡ row_held actions row.now }
{
    if row[0] == ABSENT {
        *row
    } else {
        array::from_fn(|x| held_cell(row, actions, x))
    }
}

// In place and not by `map`, which takes the grid by value and makes a further one.
#[tactic(auto, using(crate::proofs::HoldLaws::holding))]
fn hold(grid: &Grid, actions: usize) -> Grid
    ensures { result ≡ grid_held actions grid.now }
{
    let mut held = *grid;
    for row in &mut held {
        *row = held_row(row, actions);
    }
    held
}

// The grid of a C body, completed where gates hold. Each branch makes its own: one grid for both is copied for plain gates too.
#[tactic(auto, unfolding(crate::specs::code::Held::held_grid))]
pub fn grid_for(c: &[u8], actions: usize, holding: bool) -> Grid
    ensures { result ≡ held_grid holding actions c.now }
{
    if holding {
        let grid = grid_of(c);
        return hold(&grid, actions);
    }
    grid_of(c)
}
