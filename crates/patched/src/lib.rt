// Tables to try the calls on: what `read` makes of a text, with single entries and fields patched by lines of a script.
#![tactic(auto)]

pub mod fields;
mod patch;
pub mod tables;
