// The systems of satellites: their letters, and how many codes each has.
#![tactic(auto)]

ghost use Rattle.std.specs.Prelude.{◌≡◌, ◌≤◌, get_or};
ghost use Rattle.rinex.specs.Codes.{is_file_letter, letter_of};
ghost use Rattle.rinex.specs.Tests.{system_at};

// The letters of the seven systems.
const LETTERS: [u8; 7] = *b"GREJCIS";

// The system whose letter stands in column 1 of a line, and 7 where none does: numbers, as the rule's `system_at` and the tables of C have them.
pub fn system_at(line: &[u8]) -> usize
    ensures { (result ≡ system_at line.now) × (result ≤ 7) }
{
    let letter = line::within::column(line, 1);
    match letter {
        b'G' => 0,
        b'R' => 1,
        b'E' => 2,
        b'J' => 3,
        b'C' => 4,
        b'I' => 5,
        b'S' => 6,
        _ => 7,
    }
}

// The letter of a system; 0 past the seven.
pub fn letter_of(system: usize) -> u8
    ensures { result ≡ letter_of system }
{
    LETTERS.get(system).copied().unwrap_or(0)
}

// How many codes a system has; none where it is no system.
pub fn codes_of(lengths: [usize; 7], system: usize) -> usize
    ensures { result ≡ get_or lengths system 0 }
{
    lengths.get(system).copied().unwrap_or(0)
}

// A letter of the seven systems, or M.
pub fn is_file_letter(letter: u8) -> bool
    ensures { result ≡ is_file_letter letter }
{
    matches!(
        letter,
        b'G' | b'R' | b'E' | b'J' | b'C' | b'I' | b'S' | b'M'
    )
}
