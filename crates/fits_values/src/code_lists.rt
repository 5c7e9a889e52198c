// The lists of codes: system `s` has its codes from place 64 * s on.
ghost use Rattle.std.specs.Prelude.{◌≡◌, [], ◌<◌, eqb};
ghost use Rattle.lists.specs.Lists.{fresh};
ghost use Rattle.rinex.specs.Fit.{are_taken, list_fits, lists_fit, all_lists_fit};

use code::known;
use code_list::{allows, some_list};

// Whether the codes are taken.
#[tactic(auto, using(crate::proofs::Listed::taken_stop, crate::proofs::Listed::taken_more, crate::proofs::Listed::taken_over))]
fn are_taken(codes: &[u32], system: usize) -> bool
    ensures { result ≡ are_taken system codes.now }
{
    let table = known::codes();
    for code in codes {
        if !known::is_taken_by(&table, system, *code) {
            return false;
        }
    }
    true
}

// Whether no code stands twice.
fn are_fresh(codes: &[u32]) -> bool
    ensures { result ≡ fresh eqb [] codes.now }
{
    for (i, code) in codes.iter().enumerate() {
        if codes[..i].contains(code) {
            return false;
        }
    }
    true
}

// The `n` codes of a system, where there are any, in a file of this letter.
#[tactic(auto, unfolding(rinex::specs::Fit::list_fits))]
fn list_fits(letter: u8, codes: &[u32], s: usize, n: usize) -> bool
    requires { s < 7 }
    ensures { result ≡ list_fits letter codes.now s n }
{
    if n == 0 {
        return true;
    }
    let from = 64 * s;
    if 64 < n || !allows(letter, s) || codes.len() < from + n {
        return false;
    }
    let list = &codes[from..from + n];
    are_taken(list, s) && are_fresh(list)
}

// The lists of all systems.
#[tactic(auto, using(crate::proofs::Listed::lists_stop, crate::proofs::Listed::lists_more, crate::proofs::Listed::lists_over))]
fn lists_fit(letter: u8, lengths: [usize; 7], codes: &[u32]) -> bool
    ensures { result ≡ lists_fit letter codes.now 0 lengths }
{
    for (s, n) in lengths.iter().enumerate() {
        if !list_fits(letter, codes, s, *n) {
            return false;
        }
    }
    true
}

// Some system has codes, and each list is fit.
#[tactic(auto, unfolding(rinex::specs::Fit::all_lists_fit))]
pub fn all_lists_fit(letter: u8, lengths: [usize; 7], codes: &[u32]) -> bool
    ensures { result ≡ all_lists_fit letter lengths codes.now }
{
    some_list(lengths) && lists_fit(letter, lengths, codes)
}
