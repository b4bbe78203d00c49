// The judging rule at one node (document 02, W-202), for judging and for closing notices.
#![tactic(auto)]

pub mod part; // the part of a mask that may stand
