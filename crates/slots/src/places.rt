// Where the slots of a row begin, and where a code stands in its system's list.
ghost use Rattle.std.specs.Prelude.{◌≡◌, ◌+◌, ◌*◌, ◌≤◌, ◌<◌, ◌^◌, eqb, length, get_or, position};
ghost use Rattle.lists.specs.Lists.{place};
ghost use Rattle.rinex.specs.Fit.{part};
ghost use Rattle.slots.specs.InTables.{slots_before};

use systems::codes_of;

// The place behind the slots of the first `rows` rows.
pub fn slots_before(lengths: [usize; 7], satellites: &[u16], rows: usize) -> usize
    requires { (rows ≤ length satellites.now) × (slots_before lengths satellites.now rows 0 0 < 2 ^ 64) }
    ensures { result ≡ slots_before lengths satellites.now rows 0 0 }
{
    let mut at = 0;
    for satellite in &satellites[..rows] {
        at += codes_of(lengths, (*satellite / 100) as usize);
    }
    at
}

// The place of a code in a list, from 0, where it stands there.
fn place_in(list: &[u32], code: u32) -> Option<usize>
    ensures { result ≡ position (eqb code) list.now }
{
    list.iter().position(|k| code == *k)
}

// The place of a code among those of a system, from 0; where it is none of them, their number.
pub fn code_place(lengths: [usize; 7], codes: &[u32], system: usize, code: u32) -> usize
    requires { 1 ≤ get_or lengths system 0 → 64 * system + get_or lengths system 0 ≤ length codes.now }
    ensures { result ≡ place eqb code (part codes.now (64 * system) (get_or lengths system 0)) }
{
    if 7 <= system || lengths[system] == 0 {
        return 0;
    }
    let from = 64 * system;
    let n = lengths[system];
    place_in(&codes[from..from + n], code).unwrap_or(n)
}
