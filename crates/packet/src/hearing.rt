// A packet's records are observed singly, first to last, on a copy of the state's bytes: where one is refused, nothing is heard.
ghost use Rattle.std.specs.Prelude.{◌≡◌, None};
ghost use Rattle.sheet.specs.Refusals.{answer_of, answer_by};
ghost use Rattle.table.specs.TableSheet.{table_at};
ghost use Rattle.state.specs.StateBytes.{decode_state};
ghost use Rattle.controller.specs.Controller.{packet_answer};
ghost use Rattle.packet.specs.Packet.{heard_means, packet_reply};
ghost use Rattle.packet.specs.code.Walked.{hear_in};

use controller::calls::{Observation, age_of};
use sheet::refusal::Refusal;
use state::bytes::{STATE_BYTES, fill_slot, newest, slot_at};
use state::checks::state_ok;
use state::state::State;
use table::reading::{TableLayout, read};

// The most records of a packet.
const MOST_OBSERVATIONS: usize = 16;

// Why a packet is refused, and the place of the refused record, from 0, where it is one record's refusal.
#[derive(Clone, Copy, Debug, PartialEq, Eq)]
pub struct PacketRefusal {
    pub refusal: Refusal,
    pub place: Option<usize>,
}

impl From<Refusal> for PacketRefusal {
    ghost from_gives = { λ refusal p. p ≡ record { refusal = refusal; place = None } };

    fn from(refusal: Refusal) -> PacketRefusal {
        PacketRefusal {
            refusal,
            place: None,
        }
    }
}

// What is refused of n records before any is looked at: 10 to 12, 20 and 22.
#[tactic(auto, using(crate::proofs::WalkLaws::read_laws), unfolding(controller::specs::Controller::packet_answer, theory::specs::Answer::on_accepted))]
fn read_for(sheet: &[u8], state: &[u8; STATE_BYTES], n: usize) -> Result<TableLayout, Refusal>
    ensures { answer_by (table_at sheet.now) result ≡ packet_answer sheet.now (decode_state state.now) n }
{
    let l = read(sheet)?;
    if !state_ok(l, State::from(*state)) {
        return Err(Refusal::State);
    }
    if MOST_OBSERVATIONS < n {
        return Err(Refusal::TooMany);
    }
    Ok(l)
}

// A record, on a state that is one: check 20 was made for the packet, and no record undoes it. Not by observe_with: a packet took 1.4
// times as long (docs/DECISIONS.md).
#[tactic(auto, unfolding(crate::specs::code::Walked::hear_in, theory::specs::Answer::on_accepted, theory::specs::Answer::check))]
fn hear(
    l: TableLayout,
    state: [u8; STATE_BYTES],
    observation: Observation,
) -> Result<[u8; STATE_BYTES], Refusal>
    ensures { answer_of result ≡ hear_in l.highest l.delay state observation }
{
    let age = age_of(l, newest(&state), observation)?;
    if !slot_at(&state, age).agrees(observation.position) {
        return Err(Refusal::Contradiction);
    }
    let mut after = state;
    fill_slot(&mut after, age, observation.position);
    Ok(after)
}

// "Hearing takes a lent list of report records": one walk, which calls the by-value hearing. The sheet is read once.
#[tactic(auto, using(crate::proofs::WalkLaws::walk_laws, std::proofs::lemmas::Result::err_from_is_err_and))]
pub fn observe_all(
    sheet: &[u8],
    state: &[u8; STATE_BYTES],
    observations: &[Observation],
) -> Result<[u8; STATE_BYTES], PacketRefusal>
    ensures { heard_means state.now result ≡ packet_reply sheet.now state.now observations.now }
{
    let l = read_for(sheet, state, observations.len())?;
    let mut after = *state;
    for (place, &observation) in observations.iter().enumerate() {
        after = hear(l, after, observation).map_err(|refusal| PacketRefusal {
            refusal,
            place: Some(place),
        })?;
    }
    Ok(after)
}
