// Solving: document 01's table and answer at every delay, from a game sheet's bytes (refusals 1 to 8).
#![tactic(auto)]

mod chain; // the places of each key
pub mod index; // the chains of a game's lines and cells
pub mod mark; // one action of one node
pub mod spread; // the nodes before a fallen one
pub mod sweep; // the nodes of one rank
pub mod first; // round 1
pub mod block; // round 2, where no action can be played
pub mod work; // all rounds of a delay by the worklist
pub mod levels; // one delay's nodes
pub mod delays; // from delay 0 upward
pub mod solve; // solving a sheet
