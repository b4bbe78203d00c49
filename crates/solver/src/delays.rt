// From delay 0 upward to the asked delay or the first that loses. Nodes grow with the delay, so nothing beyond the owed entries
// of the two buffers is touched.
ghost use Rattle.solver.specs.code.Search.{Stopped, MasksStopped};
ghost use Rattle.solver.specs.code.Views.{view_in, indexed, CanFill, IndexOf};

use crate::index::Index;
use crate::levels::solve_level;
use region::arrays::GameArrays;
use region::words::Kept;

// Where the search stopped: whether the asked delay wins, the delay whose ranks stand, and the number of its rounds. wins is a flag
// and no Result: delay and rounds are told in either case.
#[derive(Clone, Copy)]
pub struct Stop {
    pub wins: bool,
    pub delay: u8,
    pub rounds: u16,
}

// The chains are the game's own, for all delays.
pub(crate) fn search(game: &GameArrays, index: &Index, ranks: &mut [u16], masks: &mut [u8]) -> Stop
    requires room { CanFill game.now masks.old ranks.old }
    requires chains { IndexOf game.now (indexed index.now) }
    ensures { (Stopped (view_in game.now) game.now.layout.delay ranks.old ranks.new result)
        × (MasksStopped (view_in game.now) result.delay masks.old masks.new) }
{
    let mut d: u8 = 0;
    // Document 01: the loop yields its answer by break.
    'delays: loop {
        let here = game.arena(d);
        let level = here.level;
        let nodes = level.nodes;
        let rounds = solve_level(&here, index, &mut ranks[..nodes], &mut masks[..nodes]);
        let kept = Kept {
            positions: game.positions,
            grid: &game.grid,
            level,
            ranks: &ranks[..nodes],
        };
        let wins = kept.some_good();
        if !wins || d == game.layout.delay {
            break 'delays Stop {
                wins,
                delay: d,
                rounds,
            };
        }
        d += 1;
    }
}
