// The checks of the contents, of all positions, of the G body and of the size: 1, 2, 24 and 7.
ghost use Rattle.std.specs.Prelude.{◌≡◌, ◌≤◌, length};
ghost use Rattle.reader.specs.Checks.{positions_ok, gates_ok, size_ok};
ghost use Rattle.sheet.specs.Limits.{width, most_positions};
ghost use Rattle.sheet.specs.Form.{contents_ok};
ghost use Rattle.sheet.specs.Bodies.{letters_of};

use gates::kind::is_gated;
use sheet::form::{body, contents_ok};
use sheet::kinds::kind_of;
use sheet::limits::{MOST_NODES, MOST_POSITIONS};
use sheet::size::nodes_at;

// Check 1, by the letters of the sheet's kind.
#[tactic(auto, unfolding(sheet::specs::Bodies::letters_of))]
pub(crate) fn letters_ok(s: &[u8]) -> bool
    ensures { result ≡ contents_ok width (letters_of s.now) s.now }
{
    if is_gated(s) {
        contents_ok(s, b"SPCUG")
    } else {
        contents_ok(s, b"SPCU")
    }
}

// Check 2.
#[tactic(auto, unfolding(crate::specs::Checks::positions_ok, theory::specs::Fold::both))]
pub(crate) fn positions_ok(p: &[u8]) -> bool
    ensures { result ≡ positions_ok p.now }
{
    (1..=MOST_POSITIONS).contains(&p.len()) && p.iter().all(|&b| kind_of(b).is_some())
}

// Check 24.
#[tactic(auto, unfolding(crate::specs::Checks::gates_ok, theory::specs::Fold::both, theory::specs::Fold::either))]
pub(crate) fn gates_ok(s: &[u8]) -> bool
    ensures { result ≡ gates_ok s.now }
{
    !is_gated(s) || matches!(body(s, 4), [0..=1])
}

// Check 7. By check 2 the cast loses nothing.
#[tactic(auto, using(crate::proofs::CheckLaws::size_is))]
pub(crate) fn size_ok(p: &[u8], actions: u8, delay: u8) -> bool
    requires { length p.now ≤ most_positions }
    ensures { result ≡ size_ok p.now actions delay }
{
    nodes_at(p.len() as u16, actions, delay) <= MOST_NODES
}
