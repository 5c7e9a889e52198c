// Spells the epoch records and the rows of the normal text into lent columns, with their trailing blanks: rinex/specs/Normal.antt has the text.
#![tactic(auto)]

pub mod epoch;
pub mod row;
