// A line and its columns. The rule is specs/Text.antt.
#![tactic(auto)]

pub mod within;
