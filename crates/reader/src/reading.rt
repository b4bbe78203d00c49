// Reading a game sheet: document 01's refusals 1 to 7 and W-207's 24, in the order written, and how many positions its plays come to.
ghost use Rattle.std.specs.Prelude.{◌≡◌};
ghost use Rattle.reader.specs.Checks.{header_ok};
ghost use Rattle.reader.specs.Reading.{layout_of, checked_answer, read_answer};
ghost use Rattle.sheet.specs.Refusals.{answer_of};
ghost use Rattle.reader.specs.code.Steps.{lines_answer, Headed, Checked};

use crate::checks::{gates_ok, letters_ok, positions_ok, size_ok};
use crate::lines::{all_leave, moves_ok, targets_ok};
use crate::reach::reach;
use gates::kind::is_holding;
use sheet::form::{Place, body, byte, part, placed};
use sheet::kinds::controller_at;
use sheet::limits::{MOST_ACTIONS, MOST_DELAY};
use sheet::refusal::Refusal;

// What an accepted reading carries: the start bytes, the places of the bodies, how many positions lie on plays, and whether the
// gates hold. The sheet is no field: sheet and layout stay two, as `read` answers with the layout alone, and what holds of both is asked for
// where it is used. Not joined with a table sheet's layout (table): start, actions and delay alone are in both.
#[derive(Clone, Copy, Debug, PartialEq, Eq)]
pub struct Layout {
    pub start: u8,
    pub actions: u8,
    pub delay: u8,
    pub header: Place,
    pub positions: Place,
    pub targets: Place,
    pub moves: Place,
    pub reached: usize,
    pub holding: bool,
}

// Check 3.
#[tactic(auto, unfolding(crate::specs::Checks::header_ok, theory::specs::Fold::both))]
fn header_ok(p: &[u8], h: &[u8]) -> bool
    ensures { result ≡ header_ok p.now h.now }
{
    let &[start, actions, delay] = h else {
        return false;
    };
    (1..=MOST_ACTIONS).contains(&actions)
        && delay <= MOST_DELAY
        && controller_at(p, usize::from(start))
}

// The layout of a sheet that passes checks 1 to 6 and 24.
#[tactic(auto, unfolding(crate::specs::Reading::layout_of, sheet::specs::Bodies::start_of, sheet::specs::Bodies::action_count, sheet::specs::Bodies::delay_of))]
fn layout_at(s: &[u8]) -> Layout
    requires { Checked s.now }
    ensures { result ≡ layout_of s.now }
{
    let h = body(s, 0);
    Layout {
        start: byte(h, 0),
        actions: byte(h, 1),
        delay: byte(h, 2),
        header: placed(s, 0),
        positions: placed(s, 1),
        targets: placed(s, 2),
        moves: placed(s, 3),
        reached: reach(s),
        holding: is_holding(s),
    }
}

// Checks 4, 5, 24 and 6, and acceptance.
#[tactic(auto, using(crate::proofs::ReadLaws::few_positions), unfolding(theory::specs::Answer::check, sheet::specs::Bodies::action_count))]
fn check_lines(s: &[u8]) -> Result<Layout, Refusal>
    requires { Headed s.now }
    ensures { answer_of result ≡ lines_answer s.now }
{
    let p = body(s, 1);
    let c = body(s, 2);
    let u = body(s, 3);
    if !targets_ok(p, byte(body(s, 0), 1), c) {
        return Err(Refusal::Targets);
    }
    if !moves_ok(p, u) {
        return Err(Refusal::Moves);
    }
    if !gates_ok(s) {
        return Err(Refusal::Gates);
    }
    if !all_leave(p, c, u) {
        return Err(Refusal::Stuck);
    }
    Ok(layout_at(s))
}

// Reading a game sheet of any size: all checks but 7 in the order written.
#[tactic(auto, unfolding(crate::specs::Reading::checked_answer, theory::specs::Answer::check))]
pub fn read_any(sheet: &[u8]) -> Result<Layout, Refusal>
    ensures { answer_of result ≡ checked_answer sheet.now }
{
    if !letters_ok(sheet) {
        return Err(Refusal::Contents);
    }
    let p = body(sheet, 1);
    if !positions_ok(p) {
        return Err(Refusal::Positions);
    }
    if !header_ok(p, body(sheet, 0)) {
        return Err(Refusal::Header);
    }
    check_lines(sheet)
}

// Reading a game sheet: those checks, and 7.
#[tactic(auto, using(crate::proofs::ReadLaws::reads), unfolding(crate::specs::Reading::read_answer, theory::specs::Answer::on_accepted))]
pub fn read(sheet: &[u8]) -> Result<Layout, Refusal>
    ensures { answer_of result ≡ read_answer sheet.now }
{
    let l = read_any(sheet)?;
    if !size_ok(part(sheet, l.positions), l.actions, l.delay) {
        return Err(Refusal::Size);
    }
    Ok(l)
}
