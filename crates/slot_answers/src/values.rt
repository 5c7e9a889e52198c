// The answer for a slot.
ghost use Rattle.std.specs.Prelude.{◌≡◌, ◌+◌, ◌/◌, ◌<◌, ◌^◌, pos, length, get_or};
ghost use Rattle.std.specs.Int.Signed.{mag};
ghost use Rattle.rinex.specs.Answers;
ghost use Rattle.rinex.specs.Held.{optional};
ghost use Rattle.slot_answers.specs.Handed.{meant};
ghost use Rattle.slot_answers.specs.AtPlace.{slot_answer, HeldSlots};

use crate::Answer;
use float::thousandths;

// The first bytes of codes of a pseudorange, a phase and a Doppler; the fourth is S, of a signal's strength.
const RANGE: u32 = b'C' as u32;

const PHASE: u32 = b'L' as u32;

const DOPPLER: u32 = b'D' as u32;

// A value in its unit, by the code's first byte.
#[tactic(auto, unfolding(rinex::specs::Answers::measured))]
fn measured(first: u32, x: f64) -> Answer
    ensures { meant result ≡ Answers.measured first x }
{
    match first {
        RANGE => Answer::Metres(x),
        PHASE => Answer::Cycles(x),
        DOPPLER => Answer::Hertz(x),
        _ => Answer::Strength(x),
    }
}

// Slot `i`, of a code that begins with this byte.
fn value_at(numbers: &[i64], states: &[u8], i: usize, first: u32) -> Answer
    requires { (i < length numbers.now) × ((i < length states.now) × (mag (get_or numbers.now i (pos 0)) < 2 ^ 53)) }
    ensures { meant result ≡ Answers.valued first (optional (get_or states.now i 0) (get_or numbers.now i (pos 0))) }
{
    if states[i] == 0 {
        return Answer::Blank;
    }
    measured(first, thousandths(numbers[i]))
}

// A row of `n` codes, whose slots begin at place `at`; the code asked for is at place `place` of its list.
// It reads two of the four tables of slots, and is lent those alone: tried with all four as a struct, and where the places are bounded the proof didn't close.
pub fn answer_at(
    numbers: &[i64],
    states: &[u8],
    at: usize,
    n: usize,
    place: usize,
    code: u32,
) -> Answer
    requires { HeldSlots (at + n) numbers.now states.now }
    ensures { meant result ≡ slot_answer numbers.now states.now at n place code }
{
    if n <= place {
        return Answer::NotDeclared;
    }
    value_at(numbers, states, at + place, code / 65536)
}
