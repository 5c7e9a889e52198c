// Whether single values, a head, lists of codes and an epoch's satellites are fit: the part of `rinex/specs/Fit.antt` below rows and epochs.
#![tactic(auto)]

pub mod apart;
pub mod code_lists;
pub mod heads;
pub mod numbers;
