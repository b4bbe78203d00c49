// The reverse of a game: the lines of its U body by the position reached, and the cells of its grid by their target.
ghost use Rattle.std.specs.Prelude.{◌≡◌};
ghost use Rattle.solver.specs.code.Chains.{Unlinked, cell_key};
ghost use Rattle.solver.specs.code.Sweep.{index};
ghost use Rattle.solver.specs.code.Views.{IndexOf};

use crate::chain::Chain;
use crate::spread::CELLS;
use region::arrays::GameArrays;
use sheet::form::byte;
use sheet::grid::{Grid, target};
use sheet::limits::{ABSENT, MOST_MOVES, ROW};
use sheet::moves::line_count;

// A game's moves, as the U body, and the chains of its lines and of the grid's cells.
#[derive(Clone, Copy)]
pub(crate) struct Index<'a> {
    pub(crate) moves: &'a [u8],
    pub(crate) reaching: &'a Chain<MOST_MOVES>,
    pub(crate) leading: &'a Chain<CELLS>,
}

// The key of a cell: its target. An absent one has its mark, which is the key of no position: so the keys of both chains are
// numbers.
#[tactic(auto, unfolding(crate::specs::code::Chains::cell_key, sheet::specs::code::Arrays::mark_of))]
fn cell_key(grid: &Grid, x: usize) -> usize
    ensures { result ≡ cell_key grid.now x }
{
    target(grid, x / ROW, x % ROW).map_or(usize::from(ABSENT), usize::from)
}

// Both chains, where some delay up to the asked one has pending words; no place is linked yet. The caller lends them, so that the
// stack holds them once.
#[tactic(auto, using(crate::proofs::SweepLaws::linking))]
pub(crate) fn link_both(
    game: &GameArrays,
    reaching: &mut Chain<MOST_MOVES>,
    leading: &mut Chain<CELLS>,
)
    requires lines { Unlinked reaching.old.heads reaching.old.links }
    requires cells { Unlinked leading.old.heads leading.old.links }
    ensures { IndexOf game.now
        (index game.now.moves.now reaching.new.heads reaching.new.links leading.new.heads leading.new.links) }
{
    if game.layout.delay < 2 {
        return;
    }
    let u = game.moves;
    reaching.link(line_count(u), |i| usize::from(byte(u, 2 * i + 1)));
    leading.link(CELLS, |x| cell_key(&game.grid, x));
}
