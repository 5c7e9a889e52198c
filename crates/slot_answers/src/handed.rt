// An answer as it is handed to C: a number and a float.
ghost use Rattle.std.specs.Prelude.{◌≡◌};
ghost use Rattle.rinex.specs.Answers.{kind, float};
ghost use Rattle.slot_answers.specs.Handed.{meant, meant_of};

use crate::{Answer, Unspelled};

// The number of each answer, as the C interface has them.
pub fn kind_of(a: Answer) -> u8
    ensures { result ≡ kind (meant a) }
{
    match a {
        Answer::Metres(_) => 1,
        Answer::Cycles(_) => 2,
        Answer::Hertz(_) => 3,
        Answer::Strength(_) => 4,
        Answer::Blank => 5,
        Answer::NotDeclared => 6,
        Answer::NoRow => 7,
    }
}

// Its float; where it has none, +0.
#[tactic(auto, using(crate::proofs::Valued::zero_is))]
pub fn float_of(a: Answer) -> f64
    ensures { result ≡ float (meant a) }
{
    match a {
        Answer::Metres(x) | Answer::Cycles(x) | Answer::Hertz(x) | Answer::Strength(x) => x,
        Answer::Blank | Answer::NotDeclared | Answer::NoRow => 0.0,
    }
}

// The same of what is told where a slot is asked for: the refusal has the number 20, and no float.
pub fn number_of(told: Result<Answer, Unspelled>) -> u8
    ensures { result ≡ kind (meant_of told) }
{
    match told {
        Ok(a) => kind_of(a),
        Err(Unspelled) => 20,
    }
}

#[tactic(auto, using(crate::proofs::Valued::zero_is))]
pub fn value_of(told: Result<Answer, Unspelled>) -> f64
    ensures { result ≡ float (meant_of told) }
{
    match told {
        Ok(a) => float_of(a),
        Err(Unspelled) => 0.0,
    }
}
