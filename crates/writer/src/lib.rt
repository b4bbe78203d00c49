// Writing sheets in the house form, below all that make them: table sheets and rank sheets with any bodies.
#![tactic(auto)]

pub mod writing; // the bytes of a table sheet and of a rank sheet
