// The masks: what each node allows once the ranks stand.
ghost use Rattle.std.specs.Prelude.{◌≡◌, ◌<◌, length};
ghost use Rattle.walk.specs.code.Arenas.{arena_in};
ghost use Rattle.region.specs.code.Kept.{unspoilt_part, mask_in, masks_in, masks_left};

use crate::words::Kept;
use walk::arena::{Arena, Fallen};
use walk::sized::SizedArena;

// The part of a mask whose actions are not spoilt at node k; nothing is spoilt where there is no such node. Inlined for speed, as what it
// asks is: as a call, posting a notice that closes little takes 1.5 times as long.
#[inline(always)]
#[tactic(auto, using(theory::proofs::Masks::mask_first, theory::proofs::Masks::mask_done))]
pub fn unspoilt_part(sized: &SizedArena, fallen: &Fallen, k: usize, mask: usize) -> usize
    ensures { result ≡ unspoilt_part sized.now.arena.now fallen.now k mask }
{
    let node = sized.node(k);
    // not `fold`: that each sum fits is the loop's invariant. Not by `|` either: of each bit it would have to be shown that it is clear
    let mut part: usize = 0;
    for c in 0..sized.arena.level.actions {
        let left = mask >> c;
        // `match`, not `is_some_and`: of a closure that asks `spoilt` the proof learns nothing
        let stays = left % 2 == 1
            && match &node {
                Some(node) => !node.spoilt(fallen, c),
                None => true,
            };
        part += usize::from(stays) << c;
    }
    part
}

// The mask of node k, which exists: what stays of the whole one, so that the cast loses nothing; 0 where the node is not kept.
#[tactic(auto, unfolding(crate::specs::code::Kept::mask_in, crate::specs::code::Kept::on_side, walk::specs::code::Levels::arena_of, sheet::specs::code::Arrays::view_of))]
fn mask_of(sized: &SizedArena, fallen: &Fallen, k: usize) -> u8
    requires { k < sized.now.arena.now.level.nodes }
    ensures { result ≡ mask_in (arena_in sized.now.arena.now) fallen.now.last fallen.now.marks.now k }
{
    let arena = sized.arena;
    let kept = Kept {
        positions: arena.positions,
        grid: arena.grid,
        level: arena.level,
        ranks: fallen.marks,
    };
    if kept.has(k) {
        unspoilt_part(sized, fallen, k, usize::from(sized.full_mask())) as u8
    } else {
        0
    }
}

#[tactic(auto, using(crate::proofs::MaskLaws::all_masks))]
fn all_masks(sized: &SizedArena, fallen: &Fallen, masks: &mut [u8])
    requires { length masks.old ≡ sized.now.arena.now.level.nodes }
    ensures { masks.new ≡ masks_in (arena_in sized.now.arena.now) fallen.now.last fallen.now.marks.now }
{
    for (k, mask) in masks.iter_mut().enumerate() {
        *mask = mask_of(sized, fallen, k);
    }
}

// The masks for any level and buffer: nothing is done where the level is too large or the buffer has not one entry for each node.
#[tactic(auto, using(walk::proofs::NodeLaws::fitted_level))]
pub fn fill_masks(arena: &Arena, fallen: &Fallen, masks: &mut [u8])
    ensures { masks.new ≡ masks_left arena.now fallen.now masks.old }
{
    if !arena.is_fitted(masks.len()) {
        return;
    }
    all_masks(&SizedArena { arena }, fallen, masks);
}
