// The controller: document 01's cabin, over the bytes of a table sheet and of a state (refusals 10 to 20).
#![tactic(auto)]

pub mod turn; // the action of a turn
pub mod calls; // opening, observing and acting
