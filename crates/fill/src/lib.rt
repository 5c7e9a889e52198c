// The second pass: the lines of an accepted text fill the lent tables.
#![tactic(auto)]

pub mod data;
pub mod heading;
pub mod tables;

// What is returned of the header by value, beside its letter and its lists' lengths: a time of first observation and its time system, an
// interval if there is one, and how many lines and bytes are carried.
#[derive(Clone, Copy)]
pub struct HeadRest {
    pub first: u64,
    pub time_system: usize,
    pub interval: Option<u64>,
    pub lines: usize,
    pub carried: usize,
}
