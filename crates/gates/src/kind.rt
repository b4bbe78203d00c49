// Which kind of game sheet it is: with a G body or without, and with holding gates or without. Every function is total.
ghost use Rattle.std.specs.Prelude.{◌≡◌};
ghost use Rattle.sheet.specs.Bodies.{is_gated, is_holding};

use sheet::form::{body, byte, placed};
use sheet::limits::GATED_CONTENTS;

// Has the sheet a G body, by its first offset?
#[tactic(auto, unfolding(sheet::specs::Bodies::is_gated, sheet::specs::Form::placed_at))]
pub fn is_gated(s: &[u8]) -> bool
    ensures { result ≡ is_gated s.now }
{
    placed(s, 0).at == GATED_CONTENTS
}

// Do its gates hold? Where there is no G, its place in the contents is not read.
#[tactic(auto, unfolding(sheet::specs::Bodies::is_holding, theory::specs::Fold::both))]
pub fn is_holding(s: &[u8]) -> bool
    ensures { result ≡ is_holding s.now }
{
    is_gated(s) && byte(body(s, 4), 0) == 1
}
