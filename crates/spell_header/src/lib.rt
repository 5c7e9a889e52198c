// Spells the header lines of the normal text, each into 80 lent columns with its trailing blanks: rinex/specs/Normal.antt has the text.
#![tactic(auto)]

ghost use Rattle.std.specs.Prelude.{◌≡◌, [], ◌∷◌, ◌++◌, true, ◌+◌, ◌≤◌, ◌<◌, length, get_or, take, pos};
ghost use Rattle.std.proofs.lemmas.List.Edits.{sets};
ghost use Rattle.lists.specs.Lists.{bytes};
ghost use Rattle.lists.specs.Blank.{blanks};
ghost use Rattle.write_field.specs.Normal.{whole, decimal, decimal_fits};
ghost use Rattle.moment.specs.Found.{date_at};
ghost use Rattle.moment.specs.Moment.{Fit};
ghost use Rattle.rinex.specs.Codes.{letter_of, time_systems};
ghost use Rattle.rinex.specs.Fit.{is_time, unpacked};
ghost use Rattle.rinex.specs.Normal.{first_body};
ghost use Rattle.spell_header.specs.Codes.{CodesLie, codes_text};
ghost use Rattle.spell_header.specs.Wide.{wide, day_body};

use columns::{put_blanks, put_byte, put_bytes, put_decimal, put_whole};
use moment::{Date, date_of};
use systems::letter_of;

// A label behind 60 blanks.
fn put_label(label: &[u8], out: &mut [u8])
    requires { (length label.now ≤ 20) × (length out.old ≡ 80) }
    ensures { out.new ≡ blanks 60 ++ take 20 (label.now ++ blanks 20) }
{
    put_blanks(out, 0, 80);
    put_bytes(out, 60, label);
}

pub fn end_line(out: &mut [u8])
    requires { length out.old ≡ 80 }
    ensures { out.new ≡ wide [] "END OF HEADER" }
{
    put_label(b"END OF HEADER", out);
}

pub fn version_line(letter: u8, out: &mut [u8])
    requires { length out.old ≡ 80 }
    ensures { out.new ≡ wide (bytes "     3.03           OBSERVATION DATA    " ++ (letter ∷ [])) "RINEX VERSION / TYPE" }
{
    put_label(b"RINEX VERSION / TYPE", out);
    put_bytes(out, 0, b"     3.03           OBSERVATION DATA    ");
    put_byte(out, 40, letter);
}

pub fn interval_line(n: u64, out: &mut [u8])
    requires { (length out.old ≡ 80) × (decimal_fits 10 3 (pos n) ≡ true) }
    ensures { out.new ≡ wide (decimal 10 3 (pos n)) "INTERVAL" }
{
    put_label(b"INTERVAL", out);
    put_decimal(out, 0, 10, 3, n as i64);
}

// The name of a time system.
fn put_time_system(out: &mut [u8], at: usize, y: usize)
    requires { (at + 3 ≤ length out.old) × (y < 6) }
    ensures { out.new ≡ sets out.old at (get_or time_systems y []) }
{
    let name = match y {
        0 => b"GPS",
        1 => b"GLO",
        2 => b"GAL",
        3 => b"QZS",
        4 => b"BDT",
        _ => b"IRN",
    };
    put_bytes(out, at, name);
}

// Year, month, day, hour and minute.
fn put_day(out: &mut [u8], d: Date)
    requires { (length out.old ≡ 80) × Fit d }
    ensures { out.new ≡ sets out.old 0 (day_body d) }
{
    put_whole(out, 0, 6, d.year);
    put_whole(out, 6, 6, d.month);
    put_whole(out, 12, 6, d.day);
    put_whole(out, 18, 6, d.hour);
    put_whole(out, 24, 6, d.minute);
}

// A date and its time system.
fn put_first(out: &mut [u8], d: Date, y: usize)
    requires { (length out.old ≡ 80) × (Fit d × (y < 6)) }
    ensures { out.new ≡ sets out.old 0 (first_body d y) }
{
    put_day(out, d);
    put_decimal(out, 30, 13, 7, d.ticks as i64);
    put_blanks(out, 43, 5);
    put_time_system(out, 48, y);
}

pub fn first_line(t: u64, time_system: usize, out: &mut [u8])
    requires { (length out.old ≡ 80) × ((is_time t ≡ true) × (time_system < 6)) }
    ensures { out.new ≡ wide (first_body (date_at t) time_system) "TIME OF FIRST OBS" }
{
    if let Some(d) = date_of(t) {
        put_label(b"TIME OF FIRST OBS", out);
        put_first(out, d, time_system);
    }
}

// A blank and the three bytes of a code.
fn put_code(out: &mut [u8], at: usize, k: u32)
    requires { (at + 4 ≤ length out.old) × (k < 16777216) }
    ensures { out.new ≡ sets out.old at (32 ∷ unpacked k) }
{
    put_byte(out, at, b' ');
    put_byte(out, at + 1, (k / 65536) as u8);
    put_byte(out, at + 2, (k / 256 % 256) as u8);
    put_byte(out, at + 3, (k % 256) as u8);
}

fn put_codes(codes: &[u32], out: &mut [u8])
    requires { (length out.old ≡ 80) × ((length codes.now ≤ 13) × CodesLie codes.now) }
    ensures { out.new ≡ sets out.old 6 (codes_text codes.now) }
{
    for (i, k) in codes.iter().enumerate() {
        put_code(out, 6 + 4 * i, *k);
    }
}

// The first line of a system's list, of `count` codes: those that stand in it.
pub fn list_line(system: usize, count: usize, codes: &[u32], out: &mut [u8])
    requires { (length out.old ≡ 80) × ((count < 1000) × ((length codes.now ≤ 13) × CodesLie codes.now)) }
    ensures { out.new ≡ wide (letter_of system ∷ (blanks 2 ++ (whole 3 count ++ codes_text codes.now))) "SYS / # / OBS TYPES" }
{
    put_label(b"SYS / # / OBS TYPES", out);
    put_byte(out, 0, letter_of(system));
    put_blanks(out, 1, 2);
    put_whole(out, 3, 3, count as u64);
    put_codes(codes, out);
}

pub fn next_line(codes: &[u32], out: &mut [u8])
    requires { (length out.old ≡ 80) × ((length codes.now ≤ 13) × CodesLie codes.now) }
    ensures { out.new ≡ wide (blanks 6 ++ codes_text codes.now) "SYS / # / OBS TYPES" }
{
    put_label(b"SYS / # / OBS TYPES", out);
    put_blanks(out, 0, 6);
    put_codes(codes, out);
}
