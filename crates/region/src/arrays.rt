// The arrays of a game sheet that was read, made once for every delay that is looked at.
ghost use Rattle.std.specs.Prelude.{◌≡◌, length};
ghost use Rattle.sheet.specs.Form.{part_at};
ghost use Rattle.sheet.specs.code.Arrays.{firsts_of};
ghost use Rattle.reader.specs.code.Laid.{grid_at};
ghost use Rattle.walk.specs.code.Levels.{level_to};

use reader::arrays::grid_at;
use reader::reading::Layout;
use sheet::form::part;
use sheet::grid::Grid;
use sheet::limits::INDEX;
use sheet::moves::first_lines;
use walk::arena::Arena;
use walk::level::level_at;

// What the bodies of a sheet mean: an arena's arrays without a level, and the layout, which has the numbers of one.
#[derive(Drop)]
pub struct GameArrays<'a> {
    pub layout: Layout,
    pub positions: &'a [u8],
    pub grid: Grid,
    pub moves: &'a [u8],
    pub firsts: [u16; INDEX],
    ghost indexed: { firsts ≡ firsts_of moves.now },
}

impl GameArrays<'_> {
    // The arrays of a sheet with this layout.
    pub fn of(sheet: &[u8], layout: Layout) -> GameArrays<'_>
        ensures layout { result.layout ≡ layout }
        ensures positions { result.positions.now ≡ part_at sheet.now layout.positions }
        ensures grid { result.grid ≡ grid_at sheet.now layout }
        ensures moves { result.moves.now ≡ part_at sheet.now layout.moves }
    {
        let moves = part(sheet, layout.moves);
        GameArrays {
            layout,
            positions: part(sheet, layout.positions),
            grid: grid_at(sheet, layout),
            moves,
            firsts: first_lines(moves),
        }
    }

    // The arena at a delay.
    pub fn arena(&self, delay: u8) -> Arena<'_>
        ensures positions { result.positions.now ≡ self.now.positions.now }
        ensures grid { result.grid.now ≡ self.now.grid }
        ensures moves { result.moves.now ≡ self.now.moves.now }
        ensures firsts { result.firsts.now ≡ self.now.firsts }
        ensures level { result.level
            ≡ level_to (length self.now.positions.now) self.now.layout.start self.now.layout.actions delay }
    {
        let Layout { start, actions, .. } = self.layout;
        Arena {
            positions: self.positions,
            grid: &self.grid,
            moves: self.moves,
            firsts: &self.firsts,
            level: level_at(self.positions.len(), start, actions, delay),
        }
    }
}
