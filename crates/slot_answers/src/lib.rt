// Answers for slots: what they are, the one of a slot whose place is known, and the replies of a column.
#![tactic(auto)]

pub mod handed;
pub mod replies;
pub mod room;
pub mod values;

// "One of six things", and a seventh for a row that doesn't exist.
#[derive(Clone, Copy)]
pub enum Answer {
    Metres(f64),
    Cycles(f64),
    Hertz(f64),
    Strength(f64),
    Blank,
    NotDeclared,
    NoRow,
}

// The refusal of a slot: no text spells the tables.
#[derive(Clone, Copy, Debug, PartialEq, Eq)]
pub struct Unspelled;

// Why a column has no answers.
#[derive(Clone, Copy, Debug, PartialEq, Eq)]
pub enum Unanswered {
    // No text spells the tables.
    NoText,
    // The answers have no room.
    NoRoom,
}

// The count of rows where the number is 0; else a refusal.
#[repr(C)]
#[derive(Clone, Copy)]
pub struct Reply {
    pub number: usize,
    pub count: usize,
}
