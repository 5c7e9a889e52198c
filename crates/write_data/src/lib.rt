// Puts the epochs of fit tables into a lent buffer: their records, their rows and their lines, as the normal text has them.
#![tactic(auto)]

pub mod epochs;

use fits::Untaken;

// What an epoch leaves: the entries that are not yet taken, and the place behind it.
#[derive(Clone, Copy)]
pub struct Next {
    pub untaken: Untaken,
    pub at: usize,
}
