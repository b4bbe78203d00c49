// Opening, observing and acting, over the bytes of a table sheet, which each reads on every call, and of a state.
ghost use Rattle.std.specs.Prelude.{◌≡◌, [], ◌≤◌, ◌<◌};
ghost use Rattle.sheet.specs.Limits.{most_delay};
ghost use Rattle.sheet.specs.Refusals.{answer_of};
ghost use Rattle.table.specs.TableSheet.{says, table_at};
ghost use Rattle.state.specs.State.{last_turn, acted_state};
ghost use Rattle.state.specs.StateBytes.{decode_state};
ghost use Rattle.controller.specs.Controller.{observe_with, act_with, open_answer, observe_answer, act_answer};
ghost use Rattle.controller.specs.code.Usable.{Usable};
ghost use Rattle.controller.specs.code.Ages.{age_with};

use crate::turn::{action_of, least_flagged, lowest, mask_at};
use sheet::form::part;
use sheet::refusal::Refusal;
use state::bytes::STATE_BYTES;
use state::checks::state_ok;
use state::state::{LAST_TURN, Slot, State, pushed, shifted};
use table::reading::{TableLayout, read};

// The record of a report: the position at an index.
#[repr(C)]
#[derive(Clone, Copy, Debug, PartialEq, Eq)]
pub struct Observation {
    pub index: usize,
    pub position: u8,
}

// What acting gives: the action, and the state after it.
#[derive(Clone, Copy, Debug, PartialEq, Eq)]
pub struct TurnTaken {
    pub action: u8,
    pub state: State,
}

// A turn is taken with this action.
fn take_turn(delay: u8, s: State, action: u8) -> TurnTaken
    requires { s.turn < last_turn }
    ensures { result ≡ record { action = action; state = acted_state delay s action } }
{
    let state = State {
        turn: s.turn + 1,
        last: pushed(action, s.last),
        window: shifted(delay, s.window),
    };
    TurnTaken { action, state }
}

// Where a report goes: its slot's age, by checks 16 to 18. newest is the newest index that can be reported.
#[tactic(auto, unfolding(crate::specs::code::Ages::age_with, theory::specs::Answer::check))]
pub fn age_of(l: TableLayout, newest: usize, observation: Observation) -> Result<usize, Refusal>
    ensures { answer_of result ≡ age_with l.highest l.delay newest observation.index observation.position }
{
    if l.highest < observation.position {
        return Err(Refusal::UnknownPosition);
    }
    if newest < observation.index {
        return Err(Refusal::TooNew);
    }
    let age = newest - observation.index;
    if usize::from(l.delay) < age {
        return Err(Refusal::TooOld);
    }
    Ok(age)
}

// Observing, after 10 to 12. Layout and state go as two, here and below: they come from two lent areas.
#[tactic(auto, using(crate::proofs::CallLaws::observe_laws, std::proofs::lemmas::Result::err_from_is_err_and))]
fn observe_with(l: TableLayout, s: State, observation: Observation) -> Result<State, Refusal>
    requires { l.delay ≤ most_delay }
    ensures { answer_of result ≡ observe_with (says l [] []) s observation.index observation.position }
{
    if !state_ok(l, s) {
        return Err(Refusal::State);
    }
    let age = age_of(l, 2 * s.turn, observation)?;
    if !s.window[age].agrees(observation.position) {
        return Err(Refusal::Contradiction);
    }
    let mut next = s;
    next.window[age] = Slot {
        known: true,
        position: observation.position,
    };
    Ok(next)
}

// Acting, after 10 to 12.
#[tactic(auto, using(crate::proofs::CallLaws::act_laws, std::proofs::lemmas::Result::err_from_is_err_and))]
fn act_with(l: TableLayout, sheet: &[u8], s: State) -> Result<TurnTaken, Refusal>
    requires { Usable (table_at sheet.now l) }
    ensures { answer_of result ≡ act_with (table_at sheet.now l) s }
{
    if !state_ok(l, s) {
        return Err(Refusal::State);
    }
    if s.turn == LAST_TURN {
        return Err(Refusal::LastTurn);
    }
    let delay = usize::from(l.delay);
    if 2 * s.turn < delay {
        let word = least_flagged(part(sheet, l.flags));
        let action = action_of(l.actions, delay.div_ceil(2), word, s.turn);
        return Ok(take_turn(l.delay, s, action));
    }
    let position = s.window[delay].observed().ok_or(Refusal::Unobserved)?;
    let mask = mask_at(l, part(sheet, l.masks), position, s.last);
    if mask == 0 {
        return Err(Refusal::NoAction);
    }
    Ok(take_turn(l.delay, s, lowest(mask)))
}

// Opening.
#[tactic(auto, unfolding(crate::specs::Controller::open_answer, theory::specs::Answer::on_accepted))]
pub fn opening(sheet: &[u8]) -> Result<State, Refusal>
    ensures { answer_of result ≡ open_answer sheet.now }
{
    read(sheet)?;
    Ok(State::opened())
}

// "Hearing a report": a position at an index. The state is decoded after the sheet is read: before it, it would be kept on the stack meanwhile.
#[tactic(auto, using(crate::proofs::CallLaws::reading), unfolding(crate::specs::Controller::observe_answer, theory::specs::Answer::on_accepted))]
pub fn observe(
    sheet: &[u8],
    state: &[u8; STATE_BYTES],
    observation: Observation,
) -> Result<State, Refusal>
    ensures { answer_of result
        ≡ observe_answer sheet.now (decode_state state.now) observation.index observation.position }
{
    let l = read(sheet)?;
    observe_with(l, State::from(*state), observation)
}

// "Giving the command of turn i", the state's.
#[tactic(auto, using(crate::proofs::CallLaws::reading), unfolding(crate::specs::Controller::act_answer, theory::specs::Answer::on_accepted))]
pub fn act(sheet: &[u8], state: &[u8; STATE_BYTES]) -> Result<TurnTaken, Refusal>
    ensures { answer_of result ≡ act_answer sheet.now (decode_state state.now) }
{
    let l = read(sheet)?;
    act_with(l, sheet, State::from(*state))
}
