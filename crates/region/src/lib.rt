// The arrays of a sheet that was read; and once the ranks stand, the kept nodes, their masks and the good first words. Public functions
// take any numbers and buffers, but for what takes a `SizedArena`, which stands behind the test.
#![tactic(auto)]

pub mod arrays; // the arrays of a sheet that was read
pub mod words; // kept nodes and good first words
pub mod masks; // what the nodes allow
