// What the engine is handed for a slot, and for a code of one system over all rows.
#![tactic(auto)]

pub mod all;
pub mod one;
pub mod places;
