// Reading a table sheet: document 01's "winning sheet", refusals 10 to 12.
#![tactic(auto)]

pub mod reading; // reading a table sheet, and its masks
