// How long the normal text of fit tables is, told without writing it.
#![tactic(auto)]

pub mod sums;
pub mod whole;
pub mod widths;
