// What the scripts of the edges share: the lines of a script and their numbers, texts put together from them, and the tables that are lent
// and what they hold before a call.
#![tactic(auto)]

pub mod kept;
pub mod lines;
pub mod room;
pub mod tables;
pub mod texts;
pub mod words;
