// Closing notices: document 02's W-205, refusals 1 to 7, 10, 11, 21, 23 and 9.
#![tactic(auto)]

pub mod closing; // the positions that a notice closes
pub mod masks; // what a notice leaves of the masks
pub mod flags; // and of the first words
pub mod posting; // posting a notice on a table sheet
