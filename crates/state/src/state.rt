// The controller's state, by age: the newest comes first, so nothing in it depends on the turn's number.
ghost use Rattle.std.specs.Prelude.{◌≡◌, ◌<◌};
ghost use Rattle.state.specs.State.{slots, unknown, observed_in, opened, agrees, pushed, shifted_at, shifted};

use std::array;

// The last turn: no action is taken at it.
pub const LAST_TURN: usize = 1000000;

// The most actions that are held, and the slots of the longest window.
pub const HELD: usize = 3;

pub const SLOTS: usize = 7;

// An observation: is the position of this index known, and which one it is. It isn't an Option, as C callers keep it in two bytes: acting
// hands both on, and so the position byte of a slot that is not known.
#[derive(Clone, Copy, Debug, PartialEq, Eq)]
pub struct Slot {
    pub known: bool,
    pub position: u8,
}

impl Slot {
    // A slot without an observation.
    pub(crate) fn unknown() -> Slot
        ensures { result ≡ unknown }
    {
        Slot {
            known: false,
            position: 0,
        }
    }

    // The position that was observed, if one was.
    #[tactic(auto, unfolding(crate::specs::State::observed_in))]
    pub fn observed(self) -> Option<u8>
        ensures { result ≡ observed_in self }
    {
        self.known.then_some(self.position)
    }

    // Does the slot say nothing else than this position?
    #[tactic(auto, unfolding(crate::specs::State::agrees, crate::specs::State::observed_in, theory::specs::Fold::either))]
    pub fn agrees(self, position: u8) -> bool
        ensures { result ≡ agrees self position }
    {
        self.observed().is_none_or(|observed| observed == position)
    }
}

// last[k] is the action of turn - 1 - k, window[k] the position at index 2 * turn - k; what is not held is 0.
#[derive(Clone, Copy, Debug, PartialEq, Eq)]
pub struct State {
    pub turn: usize,
    pub last: [u8; HELD],
    pub window: [Slot; SLOTS],
}

impl State {
    // No action yet, nothing observed.
    pub fn opened() -> State
        ensures { result ≡ opened }
    {
        State {
            turn: 0,
            last: [0; HELD],
            window: [Slot::unknown(); SLOTS],
        }
    }
}

#[tactic(auto, unfolding(crate::specs::State::pushed))]
pub fn pushed(action: u8, last: [u8; HELD]) -> [u8; HELD]
    ensures { result ≡ pushed action last }
{
    [action, last[0], last[1]]
}

// Slot k a turn later: it was two younger, and is dropped below the new window.
#[tactic(auto, unfolding(crate::specs::State::shifted_at, theory::specs::Fold::both))]
fn shifted_at(delay: u8, window: [Slot; SLOTS], k: usize) -> Slot
    requires { k < slots }
    ensures { result ≡ shifted_at delay window k }
{
    if 2 <= k && k <= usize::from(delay) {
        window[k - 2]
    } else {
        Slot::unknown()
    }
}

pub fn shifted(delay: u8, window: [Slot; SLOTS]) -> [Slot; SLOTS]
    ensures { result ≡ shifted delay window }
{
    array::from_fn(|k| shifted_at(delay, window, k))
}
