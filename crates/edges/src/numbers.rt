// Fields, read and written.
use field::Unfit;
use std::fmt::Display;
use std::io;

// What a field holds.
fn answer<T: Display + Drop>(rt: &impl Print, held: Result<Option<T>, Unfit>) -> io::Result<()> {
    match held {
        Ok(Some(number)) => println!(rt; "{number}"),
        Ok(None) => println!(rt; "blank"),
        Err(Unfit) => println!(rt; "unfit"),
    }
}

// A number stands under its sign, at the right of 20 columns.
fn decimal(rt: &impl Print, s: &str, d: usize) -> io::Result<()> {
    print!(rt; "F{}.{d} [{s}] ", s.len())?;
    match field::read::decimal(s.as_bytes(), d) {
        Ok(Some(z)) => println!(rt; "{z:>20}"),
        held => answer(rt, held),
    }
}

fn whole(rt: &impl Print, s: &str) -> io::Result<()> {
    print!(rt; "I [{s}] ")?;
    answer(rt, field::read::whole(s.as_bytes()))
}

fn second(rt: &impl Print, s: &str) -> io::Result<()> {
    print!(rt; "second [{s}] ")?;
    answer(rt, field::read::second(s.as_bytes()))
}

fn mark(rt: &impl Print, b: u8, top: u8) -> io::Result<()> {
    print!(rt; "mark [{}] to {top} ", char::from(b))?;
    answer(rt, field::read::mark(b, top))
}

fn written(rt: &impl Print, ok: bool, s: &[u8]) -> io::Result<()> {
    print!(rt; "[")?;
    rt.write_all(s)?;
    println!(rt; "] {}", if ok { "written" } else { "stays" })
}

fn spell(rt: &impl Print, z: i64) -> io::Result<()> {
    print!(rt; "{z:>20} as F14.3 ")?;
    let mut out = [b'?'; 14];
    let ok = write_field::decimal(z, 3, &mut out);
    written(rt, ok, &out)
}

fn spell_whole(rt: &impl Print, n: u64) -> io::Result<()> {
    print!(rt; "{n} as I3 ")?;
    let mut out = [b'?'; 3];
    let ok = write_field::whole(n, &mut out);
    written(rt, ok, &out)?;
    print!(rt; "{n} in 2 digits ")?;
    let mut two = [b'?'; 2];
    let fixed = write_field::fixed(n, &mut two);
    written(rt, fixed, &two)
}

pub fn values(rt: &impl Print) -> io::Result<()> {
    decimal(rt, "  23619095.450", 3)?;
    decimal(rt, "         -.353", 3)?;
    decimal(rt, "        -0.000", 3)?;
    decimal(rt, "              ", 3)?;
    decimal(rt, "9999999999.999", 3)?;
    decimal(rt, "-999999999.999", 3)?;
    decimal(rt, "        +1.000", 3)?;
    decimal(rt, "          1.50", 3)?;
    decimal(rt, "        1.500 ", 3)?;
    decimal(rt, "         0.000", 3)?;
    decimal(rt, "          .000", 3)?;
    decimal(rt, "          -.000", 3)?;
    decimal(rt, "         - .000", 3)?;
    decimal(rt, "       1e3.000", 3)?;
    decimal(rt, "      1 23.450", 3)?;
    decimal(rt, "      12,3.450", 3)?;
    decimal(rt, "           .45", 3)?;
    decimal(rt, "        1.4500", 3)?;
    decimal(rt, "000000001.500", 3)
}

pub fn widths(rt: &impl Print) -> io::Result<()> {
    decimal(rt, ".353", 3)?;
    decimal(rt, "353", 3)?;
    decimal(rt, "", 3)?;
    decimal(rt, "99999999999999.999", 3)?;
    decimal(rt, "999999999999999.999", 3)?;
    decimal(rt, "9999999999999999.999", 3)?;
    decimal(rt, "0000000000000000000000000001.000", 3)?;
    decimal(rt, " 59.9999999", 7)?;
    decimal(rt, "99.999999999999", 12)?;
    decimal(rt, "-9.999999999999", 12)?;
    decimal(rt, " -.000000000000", 12)
}

pub fn wholes(rt: &impl Print) -> io::Result<()> {
    whole(rt, "  7")?;
    whole(rt, "007")?;
    whole(rt, "999")?;
    whole(rt, "   ")?;
    whole(rt, "")?;
    whole(rt, " 7 ")?;
    whole(rt, "7  ")?;
    whole(rt, "-07")?;
    whole(rt, "+07")?;
    whole(rt, "7.0")?;
    whole(rt, "999999999999999999")?;
    whole(rt, "1000000000000000000")?;
    whole(rt, "00000000000000000000000000000007")
}

pub fn seconds(rt: &impl Print) -> io::Result<()> {
    second(rt, " 59.9999999")?;
    second(rt, " 60.0000000")?;
    second(rt, "  0.0000000")?;
    second(rt, " 00.0000000")?;
    second(rt, "000.0000000")?;
    second(rt, "   .0000000")?;
    second(rt, " -0.0000000")?;
    second(rt, "           ")?;
    second(rt, "  0.000000 ")?;
    second(rt, "  0.00000000")?;
    second(rt, "   30.0000000")
}

pub fn marks(rt: &impl Print) -> io::Result<()> {
    mark(rt, b' ', 7)?;
    mark(rt, b'0', 7)?;
    mark(rt, b'7', 7)?;
    mark(rt, b'8', 7)?;
    mark(rt, b'9', 9)?;
    mark(rt, b':', 9)?;
    mark(rt, b'/', 9)
}

pub fn spellings(rt: &impl Print) -> io::Result<()> {
    spell(rt, 0)?;
    spell(rt, 1)?;
    spell(rt, -1)?;
    spell(rt, -353)?;
    spell(rt, 999)?;
    spell(rt, 1000)?;
    spell(rt, 9999999999999)?;
    spell(rt, 10000000000000)?;
    spell(rt, -999999999999)?;
    spell(rt, -1000000000000)?;
    spell(rt, 9223372036854775807)?;
    spell(rt, -9223372036854775808)?;
    spell_whole(rt, 0)?;
    spell_whole(rt, 9)?;
    spell_whole(rt, 10)?;
    spell_whole(rt, 99)?;
    spell_whole(rt, 100)?;
    spell_whole(rt, 999)?;
    spell_whole(rt, 1000)?;
    spell_whole(rt, 18446744073709551615)
}
