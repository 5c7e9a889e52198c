// What a header line says, the lists of codes apart: each function answers one test or one value of specs/Tests of the rule.
#![tactic(auto)]

mod fields;
pub mod first;
pub mod interval;
pub mod version;
