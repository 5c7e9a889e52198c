// Writes tables as their one normal text: the whole file, or one epoch alone.
#![tactic(auto)]

pub mod alone;
pub mod whole;
