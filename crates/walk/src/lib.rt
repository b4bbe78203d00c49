// The walk over one node's actions and moves. Public functions take any numbers and test that the node exists, but for those of a
// `SizedArena`, which stands behind the test.
#![tactic(auto)]

pub mod level; // the numbers of one delay
pub mod arena; // what the walk goes over
pub mod sized; // an arena whose level is small enough
pub mod walk; // which actions are spoilt, and whether all are
