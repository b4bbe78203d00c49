// What a notice leaves of the masks, as numbers in a buffer of their own.
ghost use Rattle.std.specs.Prelude.{◌≡◌, [], ◌≤◌, length, take};
ghost use Rattle.theory.specs.Delay.{arena};
ghost use Rattle.theory.specs.Closing.{SizedMasks};
ghost use Rattle.sheet.specs.Form.{part_at};
ghost use Rattle.sheet.specs.Limits.{most_nodes};
ghost use Rattle.sheet.specs.Bodies.{delay_of};
ghost use Rattle.sheet.specs.SheetGame.{game_of};
ghost use Rattle.notice.specs.code.Closed.{closed_body};
ghost use Rattle.notice.specs.code.Left.{PrunedIn, left_of};

use crate::closing::Notice;
use prune::prune::prune;
use region::arrays::GameArrays;
use sheet::limits::MOST_POSITIONS;
use walk::arena::Arena;

impl Notice<'_> {
    // Pruned over the arrays of the sheet with the notice's positions closed.
    #[tactic(auto, using(crate::proofs::LeftLaws::closing_arrays))]
    fn prune_closed(&self, masks: &mut [u8])
        ensures { PrunedIn self.now.sheet.now self.now.layout
            (closed_body (part_at self.now.sheet.now self.now.layout.positions) self.now.positions.now) masks.old masks.new }
    {
        let game = GameArrays::of(self.sheet, self.layout);
        let p = game.positions;
        let mut closed = [0u8; MOST_POSITIONS];
        self.fill_closed(p, &mut closed);
        let arena = Arena {
            positions: &closed[..p.len()],
            ..game.arena(self.layout.delay)
        };
        prune(&arena, masks);
    }

    // What the notice leaves of the masks of a table that fits the sheet, at the front of a lent buffer.
    #[tactic(auto, using(crate::proofs::LeftLaws::leaving_masks))]
    pub(crate) fn left_masks(&self, masks: &[u8], left: &mut [u8])
        requires { (SizedMasks (arena (game_of self.now.sheet.now) (delay_of self.now.sheet.now)) masks.now)
            × (most_nodes ≤ length left.old) }
        ensures { take (length masks.now) left.new
            ≡ (left_of self.now.sheet.now self.now.positions.now [] masks.now).masks }
    {
        let front = &mut left[..masks.len()];
        front.copy_from_slice(masks);
        self.prune_closed(front);
    }
}
