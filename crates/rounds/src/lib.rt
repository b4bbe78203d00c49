// The rounds of document 01, in place in a lent rank buffer, for every level and every buffer.
#![tactic(auto)]

pub mod rounds; // one round, all rounds
