// One delay's nodes: by plain rounds where no word is pending, else by the worklist.
ghost use Rattle.std.specs.Prelude.{◌≡◌, length};
ghost use Rattle.theory.specs.Rounds.{masks_by};
ghost use Rattle.walk.specs.code.Arenas.{arena_in};
ghost use Rattle.rounds.specs.code.Falling.{AtMost};
ghost use Rattle.solver.specs.code.Search.{Leveled};
ghost use Rattle.solver.specs.code.Views.{CanLevel};

use crate::index::Index;
use crate::work::work;
use region::masks::fill_masks;
use rounds::rounds::rounds;
use walk::arena::{Arena, Fallen};
use walk::sized::SizedArena;

// The ranks, and the number of rounds; where words are pending, the masks too.
#[tactic(auto, using(crate::proofs::LevelLaws::level_worked))]
pub(crate) fn solve_level(arena: &Arena, index: &Index, ranks: &mut [u16], masks: &mut [u8]) -> u16
    requires { (CanLevel arena.now index.now) × (length ranks.old ≡ arena.now.level.nodes) × (length masks.old ≡ arena.now.level.nodes) }
    ensures { Leveled (arena_in arena.now) arena.now.level ranks.new masks.new result }
{
    if arena.level.words == 1 {
        return rounds(arena, ranks);
    }
    work(arena, index, ranks, masks)
}

// The masks, once the ranks stand; they do already where words are pending. No rank is over the last.
pub(crate) fn mask_level(sized: &SizedArena, fallen: &Fallen, masks: &mut [u8])
    requires { (AtMost fallen.now.last fallen.now.marks.now) × (length masks.old ≡ sized.now.arena.now.level.nodes)
        × ((sized.now.arena.now.level.words ≡ 1 → ⊥) → masks.old ≡ masks_by (arena_in sized.now.arena.now) fallen.now.marks.now) }
    ensures { masks.new ≡ masks_by (arena_in sized.now.arena.now) fallen.now.marks.now }
{
    if sized.arena.level.words == 1 {
        fill_masks(sized.arena, fallen, masks);
    }
}
