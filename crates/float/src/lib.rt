// A number of thousandths as a 64-bit float.
#![tactic(auto)]

ghost use Rattle.std.specs.Prelude.{◌≡◌, ◌<◌, ◌^◌};
ghost use Rattle.std.specs.Int.Signed.{mag};
ghost use Rattle.float.specs.Nearest.{nearest_to};

// "The whole number, converted exactly, divided once by 1000": the double nearest to the quotient.
pub fn thousandths(n: i64) -> f64
    requires { mag n < 2 ^ 53 }
    ensures { result ≡ nearest_to n 1000 }
{
    n as f64 / 1000.0
}
