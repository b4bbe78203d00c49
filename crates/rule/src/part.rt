// The part of a node's mask that may stand: what judging compares with the whole mask, and what a closing notice leaves of it. Masks are
// numbers here, however many bytes a sheet has for them.
ghost use Rattle.std.specs.Prelude.{◌≡◌};
ghost use Rattle.rule.specs.code.Parts.{mark_for, marks_after, part_at};

use region::masks::unspoilt_part;
use sheet::kinds::safe_at;
use table::reading::{mask_count, mask_of};
use walk::arena::{Arena, Fallen};
use walk::sized::SizedArena;

// A node's mark for the walk: 1, fallen, where it has no mask.
#[tactic(auto, unfolding(crate::specs::code::Parts::mark_for))]
pub fn mark_for(mask: usize) -> u16
    ensures { result ≡ mark_for mask }
{
    u16::from(mask == 0)
}

// Marks the nodes for the walk. Nothing is marked where there is no room for all. Ranks in all but name: so the walk and the first words
// read a table's masks as they read a solver's ranks.
#[tactic(auto, using(crate::proofs::PartCode::marking))]
pub fn fill_marks(masks: &[u8], marks: &mut [u16])
    ensures { marks.new ≡ marks_after masks.now marks.old }
{
    if marks.len() < mask_count(masks) {
        return;
    }
    // by index, which two slices share, masks being read as numbers; over the marks' front it is no shorter
    for k in 0..mask_count(masks) {
        marks[k] = mark_for(mask_of(masks, k));
    }
}

// The part of a mask that may stand at node k: nothing where the node is of the wrong side or unsafe, or there is no such node. The
// nodes whose mark is 1 count as fallen. Inlined for speed: as a call, judging a table with few masks takes 1.3 times as long.
#[inline(always)]
#[tactic(auto, unfolding(crate::specs::code::Parts::part_in, crate::specs::code::Parts::part_of, walk::specs::code::Nodes::is_node, walk::specs::code::Levels::arena_of, sheet::specs::code::Arrays::view_of, theory::specs::Fold::both), using(walk::proofs::NodeLaws::guarding, crate::proofs::PartCode::part_stands))]
pub fn allowed_part(arena: &Arena, marks: &[u16], k: usize, mask: usize) -> usize
    ensures { result ≡ part_at arena.now marks.now k mask }
{
    let level = arena.level;
    if level.is_node(arena.positions.len(), k)
        && arena.on_right(k / level.words)
        && safe_at(arena.positions, k / level.words)
    {
        let fallen = Fallen { marks, last: 1 };
        unspoilt_part(&SizedArena { arena }, &fallen, k, mask)
    } else {
        0
    }
}
