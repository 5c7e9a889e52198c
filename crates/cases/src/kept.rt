// What every lent entry holds before a call, and whether the entries from a place on still hold it.

// A type of entries, and the value that no call writes by chance.
pub trait Prefilled: Copy + PartialEq {
    const FILLED: Self;
}

impl Prefilled for u8 {
    const FILLED: u8 = 165;
}

impl Prefilled for u16 {
    const FILLED: u16 = 42405;
}

impl Prefilled for u32 {
    const FILLED: u32 = 2779096485;
}

impl Prefilled for u64 {
    const FILLED: u64 = 11936128518282651045;
}

impl Prefilled for i64 {
    const FILLED: i64 = -6510615555426900571;
}

pub fn are_kept<T: Prefilled>(s: &[T], from: usize) -> bool {
    s.iter().skip(from).all(|entry| *entry == T::FILLED)
}

// How many places hold another value.
pub fn changed<T: Prefilled>(s: &[T]) -> usize {
    s.iter().filter(|entry| **entry != T::FILLED).count()
}
