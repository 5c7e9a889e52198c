// The rule of RINEX 3.03 observation files: specs/ has the format, the refusals, the normal text and the promises.
#![tactic(auto)]

// What is said of a file by value: its letter as a byte, how many codes each system's list has, the time of first observation in units of
// 10⁻⁷ s and its time system (0 to 5 are GPS, GLO, GAL, QZS, BDT, IRN), the interval in thousandths of a second (state 1) or none
// (state 0), and how many header lines are carried. States stand beside their values, and kinds as numbers, for the C interface.
#[repr(C)]
#[derive(Clone, Copy)]
pub struct Head {
    pub letter: u8,
    pub lengths: [usize; 7],
    pub first: u64,
    pub time_system: usize,
    pub interval_state: u8,
    pub interval: u64,
    pub lines: usize,
}

// How many entries of each table are used.
#[repr(C)]
#[derive(Clone, Copy)]
pub struct Counts {
    pub epochs: usize,
    pub rows: usize,
    pub slots: usize,
    pub carried: usize,
}

// An entry of the epoch table: its time and its clock, each with a state, its flag, and how many rows or lines follow (in the table of tallies).
// States stand beside their values for the C interface.
#[repr(C)]
#[derive(Clone, Copy)]
pub struct EpochEntry {
    pub time_state: u8,
    pub time: u64,
    pub flag: u8,
    pub count: u16,
    pub clock_state: u8,
    pub clock: i64,
}
