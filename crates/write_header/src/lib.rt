// Puts the header of fit tables into a lent buffer, as the normal text has it.
#![tactic(auto)]

pub mod code_lists;
pub mod heading;
