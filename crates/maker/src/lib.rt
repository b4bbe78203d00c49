// Making table and rank sheets from a game sheet: document 01's refusals 1 to 9.
#![tactic(auto)]

pub mod making; // making a sheet
mod sizes; // what the numbers of a sheet that was read come to
