// The satellites of one epoch are told apart by a mark for each.
ghost use Rattle.std.specs.Prelude.{◌≡◌, []};
ghost use Rattle.fits_values.specs.Apart.{apart};

// Whether the satellites are below 700 and none stands twice.
#[tactic(auto, using(crate::proofs::Parted::none_marked, crate::proofs::Parted::apart_high, crate::proofs::Parted::apart_stop, crate::proofs::Parted::apart_over))]
pub fn are_apart(satellites: &[u16]) -> bool
    ensures { result ≡ apart [] satellites.now }
{
    let mut seen = [false; 700];
    for satellite in satellites {
        let s = *satellite as usize;
        if 700 <= s || seen[s] {
            return false;
        }
        seen[s] = true;
    }
    true
}
