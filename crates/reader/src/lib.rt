// Reading a game sheet: document 01's refusals 1 to 7 and W-207's 24, and how many positions lie on plays (W-201).
#![tactic(auto)]

mod checks; // the contents, all positions, the gates, and the size
pub mod lines; // the lines of the C and U bodies
pub mod reading; // reading a game sheet
mod reach; // how many positions lie on plays
pub mod arrays; // the arrays of a sheet that was read
