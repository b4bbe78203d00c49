// Opening, observing and acting for C and Rust callers, who keep the state as bytes. Every function takes any bytes, and takes its
// answer apart by itself, here and in the other files: each writes other places, and closures that write them would be no plainer.
ghost use Rattle.std.specs.Prelude.{◌≡◌};
ghost use Rattle.controller.specs.Controller.{open_answer};
ghost use Rattle.packet.specs.Packet.{packet_reply};
ghost use Rattle.packet.specs.Told.{told};
ghost use Rattle.capi.specs.Exported.{number_for};
ghost use Rattle.capi.specs.Controlled.{observing, acting, bytes_opened, bytes_observed, bytes_acted, action_after};

use controller::calls::{Observation, act, observe, opening};
use packet::answer::PacketAnswer;
use packet::hearing::observe_all;
use state::bytes::{STATE_BYTES, fill_slot, newest};

#[unsafe(no_mangle)]
#[tactic(auto, unfolding(crate::specs::Exported::by_answer))]
pub extern "C" fn lq_open(sheet: &[u8], state: &mut [u8; STATE_BYTES]) -> u8
    ensures number { result ≡ number_for (open_answer sheet.now) }
    ensures state { state.new ≡ bytes_opened sheet.now state.old }
{
    match opening(sheet) {
        Ok(opened) => {
            *state = <[u8; STATE_BYTES]>::from(opened);
            0
        }
        Err(refusal) => u8::from(refusal),
    }
}

// The slot's two bytes alone are written.
#[unsafe(no_mangle)]
#[tactic(auto, using(crate::proofs::ExportLaws::index_within), unfolding(crate::specs::Exported::by_answer))]
pub extern "C" fn lq_observe(
    sheet: &[u8],
    state: &mut [u8; STATE_BYTES],
    index: usize,
    position: u8,
) -> u8
    ensures number { result ≡ number_for (observing sheet.now state.old index position) }
    ensures state { state.new ≡ bytes_observed sheet.now state.old index position }
{
    match observe(sheet, state, Observation { index, position }) {
        Ok(_) => {
            fill_slot(state, newest(state) - index, position);
            0
        }
        Err(refusal) => u8::from(refusal),
    }
}

#[unsafe(no_mangle)]
pub extern "C" fn lq_observe_all(
    sheet: &[u8],
    state: &mut [u8; STATE_BYTES],
    observations: &[Observation],
) -> PacketAnswer
    ensures answer { result ≡ told (packet_reply sheet.now state.old observations.now).response }
    ensures state { state.new
        ≡ (packet_reply sheet.now state.old observations.now).bytes }
{
    match observe_all(sheet, state, observations) {
        Ok(after) => {
            *state = after;
            PacketAnswer {
                refusal: 0,
                place: 0,
            }
        }
        Err(refused) => PacketAnswer::from(refused),
    }
}

#[unsafe(no_mangle)]
#[tactic(auto, unfolding(crate::specs::Exported::by_answer))]
pub extern "C" fn lq_act(sheet: &[u8], state: &mut [u8; STATE_BYTES], action: &mut u8) -> u8
    ensures number { result ≡ number_for (acting sheet.now state.old) }
    ensures state { state.new ≡ bytes_acted sheet.now state.old }
    ensures action { action.new ≡ action_after sheet.now state.old action.old }
{
    match act(sheet, state) {
        Ok(taken) => {
            *action = taken.action;
            *state = <[u8; STATE_BYTES]>::from(taken.state);
            0
        }
        Err(refusal) => u8::from(refusal),
    }
}
