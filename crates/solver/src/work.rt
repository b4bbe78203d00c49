// All rounds at one delay with pending words, and the masks.
ghost use Rattle.std.specs.Prelude.{◌≡◌, ◌/◌, length};
ghost use Rattle.walk.specs.code.Arenas.{arena_in};
ghost use Rattle.solver.specs.code.Seen.{Clear};
ghost use Rattle.solver.specs.code.Working.{Worked};
ghost use Rattle.solver.specs.code.Views.{CanWork, Same};

use crate::block::Rows;
use crate::index::Index;
use crate::mark::Worklist;
use crate::sweep::Round;
use sheet::limits::MOST_NODES;
use walk::arena::Arena;
use walk::sized::SizedArena;

// The rounds, each from the nodes that fell in the one before, and their number: the last one in which a node fell, or round 1.
// seen is no field of the worklist: rounds 1 and 2 and odd delays note nothing.
#[tactic(auto, using(crate::proofs::WorkLaws::rounding))]
fn all_rounds(
    arena: &Arena,
    index: &Index,
    younger: usize,
    seen: &mut [bool],
    work: &mut Worklist,
) -> u16
    requires { (CanWork arena.now index.now younger) × (length work.old.masks.now ≡ arena.now.level.nodes) × (work.old.tail ≡ 0)
        × (Clear seen.old) }
    ensures { (Same work.old work.new) × (Worked (arena_in arena.now) work.new.ranks.now work.new.masks.now result) }
{
    let level = arena.level;
    let sized = SizedArena { arena };
    work.first(&sized, sized.full_mask());
    let mut lo: usize = 0;
    let mut hi = work.tail;
    let rows = Rows {
        sized: &sized,
        younger,
    };
    rows.block(work);
    let mut n: u16 = 1;
    // Document 01: the loop yields its answer by break.
    'rounds: loop {
        let round = Round { level, younger, n };
        round.sweep(index, lo..hi, seen, work);
        let end = work.tail;
        if end == hi {
            break 'rounds n;
        }
        lo = hi;
        hi = end;
        n += 1;
    }
}

// All rounds over buffers of their own: the queue, and a note for each target and word. Two functions, as a loop and the buffers that it
// goes over in one would be no plainer.
pub(crate) fn work(arena: &Arena, index: &Index, ranks: &mut [u16], masks: &mut [u8]) -> u16
    requires { (CanWork arena.now index.now (arena.now.level.words / arena.now.level.actions)) × (length ranks.old ≡ arena.now.level.nodes)
        × (length masks.old ≡ arena.now.level.nodes) }
    ensures { Worked (arena_in arena.now) ranks.new masks.new result }
{
    let nodes = arena.level.nodes;
    let mut queue = [0u16; MOST_NODES];
    let mut seen = [false; MOST_NODES];
    let mut list = Worklist {
        ranks,
        masks,
        queue: &mut queue[..nodes],
        tail: 0,
    };
    let younger = arena.level.words / arena.level.actions;
    all_rounds(arena, index, younger, &mut seen[..nodes], &mut list)
}
