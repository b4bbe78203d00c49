// The largest part of a table's masks that the judging rule allows (document 02, W-205), over the arrays of a game.
#![tactic(auto)]

pub mod cut; // bits that go out of one node's mask
pub mod strike; // the nodes before a fallen one
pub mod prune; // sweeps until nothing changes
