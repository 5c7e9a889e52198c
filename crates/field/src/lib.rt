// Reads fields of fixed width: whole numbers, decimals, seconds and marks. The rule is specs/Field.antt.
#![tactic(auto)]

pub mod read;

// A field that reads as nothing: it holds no number, and is not blank.
#[derive(Clone, Copy, Debug, PartialEq, Eq)]
pub struct Unfit;
