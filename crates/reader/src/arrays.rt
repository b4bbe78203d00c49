// The arrays of a sheet that was read.
ghost use Rattle.std.specs.Prelude.{◌≡◌};
ghost use Rattle.reader.specs.code.Laid.{grid_at};

use crate::reading::Layout;
use gates::hold::grid_for;
use sheet::form::part;
use sheet::grid::Grid;

// The grid of targets, which every operation that walks a game reads: completed where the gates hold.
#[tactic(auto, unfolding(crate::specs::code::Laid::grid_at))]
pub fn grid_at(sheet: &[u8], l: Layout) -> Grid
    ensures { result ≡ grid_at sheet.now l }
{
    grid_for(part(sheet, l.targets), usize::from(l.actions), l.holding)
}
