// What an epoch record says: each function answers one test or one value of specs/Tests of the rule.
#![tactic(auto)]

pub mod fields;
pub mod fitness;
pub mod time;
