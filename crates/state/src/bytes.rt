// The controller's state as 21 bytes that the caller keeps (include/loquatquoits.h). Any bytes are a state.
ghost use Rattle.std.specs.Prelude.{◌≡◌, ◌*◌, ◌<◌, get_or};
ghost use Rattle.state.specs.State.{slots, slot_at};
ghost use Rattle.state.specs.StateBytes.{state_bytes, turn_from, slot_in, window_in, decode_state, encode_state, slot_filled};

use crate::state::{SLOTS, Slot, State};
use std::array;

pub const STATE_BYTES: usize = 21;

// Where the held actions begin, and the slots.
const ACTIONS: usize = 4;

const WINDOW: usize = 7;

// The turn, from its four bytes. Callers cast it, as the library has no `usize::from` of a u32.
#[tactic(auto, unfolding(crate::specs::StateBytes::turn_from))]
fn turn_in(b: &[u8; STATE_BYTES]) -> u32
    ensures { result ≡ turn_from (get_or b.now 0 0) (get_or b.now 1 0) (get_or b.now 2 0) (get_or b.now 3 0) }
{
    u32::from_le_bytes([b[0], b[1], b[2], b[3]])
}

// Slot k, by the index of its two bytes: the 21 bytes are no array of pairs, so that a pair for a `From<[u8; 2]>` would have to be made first.
#[tactic(auto, unfolding(crate::specs::StateBytes::slot_in, crate::specs::StateBytes::slot_from))]
fn slot_in(b: &[u8; STATE_BYTES], k: usize) -> Slot
    requires { k < slots }
    ensures { result ≡ slot_in b.now k }
{
    let at = WINDOW + 2 * k;
    Slot {
        known: b[at] != 0,
        position: b[at + 1],
    }
}

fn window_in(b: &[u8; STATE_BYTES]) -> [Slot; SLOTS]
    ensures { result ≡ window_in b.now }
{
    array::from_fn(|k| slot_in(b, k))
}

impl From<[u8; STATE_BYTES]> for State {
    ghost from_gives = { λ b s. s ≡ decode_state b };

    #[tactic(auto, unfolding(crate::specs::StateBytes::decode_state))]
    fn from(b: [u8; STATE_BYTES]) -> State {
        State {
            turn: turn_in(&b) as usize,
            last: [b[4], b[5], b[6]],
            window: window_in(&b),
        }
    }
}

// The newest index that can be reported: twice the turn.
#[tactic(auto, unfolding(crate::specs::StateBytes::decode_state))]
pub fn newest(b: &[u8; STATE_BYTES]) -> usize
    ensures { result ≡ 2 * (decode_state b.now).turn }
{
    2 * turn_in(b) as usize
}

// Slot k alone; unknown where there is none.
#[tactic(auto, using(crate::proofs::ByteLaws::slot_decoded, crate::proofs::ByteLaws::slot_none))]
pub fn slot_at(b: &[u8; STATE_BYTES], k: usize) -> Slot
    ensures { result ≡ slot_at (decode_state b.now) k }
{
    if k < SLOTS {
        slot_in(b, k)
    } else {
        Slot::unknown()
    }
}

// Byte i of a state: the turn's, the held actions, then for each slot whether it is known and its position.
#[tactic(auto, using(crate::proofs::ByteLaws::bytes))]
fn byte_of(s: State, i: usize) -> u8
    requires { i < state_bytes }
    ensures { result ≡ get_or (encode_state s) i 0 }
{
    if i < ACTIONS {
        return s.turn.to_le_bytes()[i];
    }
    if i < WINDOW {
        return s.last[i - ACTIONS];
    }
    let slot = s.window[(i - WINDOW) / 2];
    if (i - WINDOW) % 2 == 0 {
        u8::from(slot.known)
    } else {
        slot.position
    }
}

impl From<State> for [u8; STATE_BYTES] {
    ghost from_gives = { λ s b. b ≡ encode_state s };

    fn from(s: State) -> [u8; STATE_BYTES] {
        array::from_fn(|i| byte_of(s, i))
    }
}

// Writes position to slot k. A slot that is known is left as it is, byte for byte, and so is everything else.
#[tactic(auto, unfolding(crate::specs::StateBytes::slot_filled, crate::specs::StateBytes::slot_in, crate::specs::StateBytes::slot_from, theory::specs::Fold::either))]
pub fn fill_slot(b: &mut [u8; STATE_BYTES], k: usize, position: u8)
    ensures { b.new ≡ slot_filled b.old k position }
{
    if k < SLOTS {
        let at = WINDOW + 2 * k;
        if b[at] == 0 {
            b[at] = 1;
            b[at + 1] = position;
        }
    }
}
