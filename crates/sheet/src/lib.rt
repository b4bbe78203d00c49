// Sheets: the house form, what the bodies of a game sheet say, and the arrays that they mean. `reader` reads game sheets.
#![tactic(auto)]

pub mod limits; // document 01's numbers
pub mod refusal; // the project's refusals and their numbers
pub mod form; // contents and bodies of any sheet
pub mod kinds; // what the byte of a position says
pub mod size; // how many words and nodes
pub mod grid; // the grid of targets that the C body means
pub mod moves; // the index of first lines that the U body means
