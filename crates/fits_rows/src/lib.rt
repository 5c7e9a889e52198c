// Whether carried lines, and rows with their slots, are fit: the part of `rinex/specs/Fit.antt` below epochs.
#![tactic(auto)]

pub mod lines;
pub mod rows;

// The place behind some lines that are fit, and whether one of them is MARKER NAME.
#[derive(Clone, Copy, Debug, PartialEq, Eq)]
pub struct Run {
    pub to: usize,
    pub marker: bool,
}
