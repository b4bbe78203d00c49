// W-207's gates: whether those of a game sheet hold, and the grid of targets of a game where they do.
#![tactic(auto)]

pub mod kind; // which kind of sheet it is
pub mod hold; // the completed grid
