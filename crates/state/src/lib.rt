// The controller's state, which states there are (check 20), and the state as bytes. Every function takes any state and any bytes.
#![tactic(auto)]

pub mod state; // the state, and how it changes
pub mod checks; // is a state one: check 20
pub mod bytes; // the state as 21 bytes
