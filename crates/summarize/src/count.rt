// Counts entries of a table.
ghost use Rattle.std.specs.Prelude.{◌≡◌, ◌≤◌, length, take};
ghost use Rattle.summarize.specs.Count.{belows};

// How many of the first n entries are below a bound.
#[tactic(auto, using(crate::proofs::Counting::counted))]
pub fn below(bound: u8, n: usize, s: &[u8]) -> usize
    requires { n ≤ length s.now }
    ensures value { result ≡ belows bound (take n s.now) }
    ensures upper_bound { result ≤ n }
{
    s[..n].iter().filter(|entry| **entry < bound).count()
}
