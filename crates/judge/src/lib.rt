// Judging tables made elsewhere: document 02's W-202, refusals 1 to 7, 10 to 12 and 21.
#![tactic(auto)]

pub mod judging; // judging a table sheet
