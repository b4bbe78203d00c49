// Hearing a packet: up to 16 reports in one call (document 02's W-204), refusals 10 to 12, 20, 22, then 16 to 19 by record.
#![tactic(auto)]

pub mod hearing; // the walk over a packet's records
pub mod answer; // the answer in numbers
