// Solving a game sheet: refusals 1 to 8, the answer, and the masks and ranks in the lent buffers.
ghost use Rattle.std.specs.Prelude.{◌≡◌};
ghost use Rattle.sheet.specs.Refusals.{answer_by};
ghost use Rattle.solver.specs.Solving.{solved_by, solving, masks_solved, ranks_solved};
ghost use Rattle.solver.specs.code.Search.{Filled};
ghost use Rattle.solver.specs.code.Views.{view_in, CanFill};

use crate::chain::Chain;
use crate::delays::{Stop, search};
use crate::index::{Index, link_both};
use crate::levels::mask_level;
use reader::reading::{Layout, read};
use region::arrays::GameArrays;
use sheet::form::part;
use sheet::refusal::Refusal;
use walk::arena::Fallen;
use walk::level::level_at;
use walk::sized::SizedArena;

// Losing: the least delay at which no strategy wins. The cases have document 01's names.
#[derive(Clone, Copy, Debug, PartialEq, Eq)]
pub enum Solution {
    Winning(Layout),
    Losing(u8, Layout),
}

// Both buffers filled, from the arrays of an accepted sheet. The chains are made once, for all delays.
#[tactic(auto, using(crate::proofs::SolveLaws::inside))]
fn fill(game: &GameArrays, masks: &mut [u8], ranks: &mut [u16]) -> Stop
    requires { CanFill game.now masks.old ranks.old }
    ensures { Filled (view_in game.now) game.now.layout.delay masks.old ranks.old masks.new ranks.new result }
{
    let mut reaching = Chain::new();
    let mut leading = Chain::new();
    link_both(game, &mut reaching, &mut leading);
    let index = Index {
        moves: game.moves,
        reaching: &reaching,
        leading: &leading,
    };
    let stop = search(game, &index, ranks, masks);
    let here = game.arena(stop.delay);
    let nodes = here.level.nodes;
    let fallen = Fallen {
        marks: &ranks[..nodes],
        last: stop.rounds,
    };
    mask_level(&SizedArena { arena: &here }, &fallen, &mut masks[..nodes]);
    stop
}

// Document 01 has the reading taken apart with let else, and its refusal handed straight on. The two areas are the C caller's, and
// stay two slices.
#[tactic(auto, using(crate::proofs::SolveLaws::handing_on))]
pub fn solve(sheet: &[u8], masks: &mut [u8], ranks: &mut [u16]) -> Result<Solution, Refusal>
    ensures answer { answer_by solved_by result ≡ solving sheet.now masks.old ranks.old }
    ensures masks { masks.new ≡ masks_solved sheet.now masks.old ranks.old }
    ensures ranks { ranks.new ≡ ranks_solved sheet.now masks.old ranks.old }
{
    let reading = read(sheet);
    let Ok(l) = reading else {
        return Err(reading.unwrap_err());
    };
    // before the arrays are made: a caller with small areas pays for reading alone
    let positions = part(sheet, l.positions);
    let level = level_at(positions.len(), l.start, l.actions, l.delay);
    let room = masks.len().min(ranks.len());
    if room < level.nodes {
        return Err(Refusal::Buffers);
    }
    let game = GameArrays::of(sheet, l);
    let stop = fill(&game, masks, ranks);
    if stop.wins {
        return Ok(Solution::Winning(l));
    }
    Ok(Solution::Losing(stop.delay, l))
}
