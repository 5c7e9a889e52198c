// The label of a line, in columns 61 to 80: chosen by its length, then by its first letter, then compared.
ghost use Rattle.std.specs.Prelude.{◌≡◌, ◌+◌, ◌≤◌, length, take, drop};
ghost use Rattle.lists.specs.Lists;
ghost use Rattle.lists.specs.Maybe.{given};
ghost use Rattle.lists.specs.Lists.{place};
ghost use Rattle.line.specs.Text.{cols, cut};
ghost use Rattle.label.specs.Groups.{Cut, Sought};
ghost use Rattle.label.specs.Labels.{labels, kind_at, label_place, label_of};

use crate::Label;
use line::within::cut_length;
use lists::same;

// The place of what is no label. A number, since the rule's `label_place` answers it, and `kind` goes by the rule's places.
const NONE: usize = 33;

// The labels of 17 letters and more, those of one length side by side; their places stand where they are sought. No `match` on the labels themselves: tried
// on the names of `header::first::time_place`, and the proof of its default arm did not close.
const OF_17: [u8; 51] = *b"\
    OBSERVER / AGENCY\
    TIME OF FIRST OBS\
    SYS / PHASE SHIFT";

const OF_18: [u8; 54] = *b"\
    SYS / DCBS APPLIED\
    SYS / PCVS APPLIED\
    SYS / SCALE FACTOR";

const OF_19: [u8; 133] = *b"\
    PGM / RUN BY / DATE\
    REC # / TYPE / VERS\
    APPROX POSITION XYZ\
    CENTER OF MASS: XYZ\
    SYS / # / OBS TYPES\
    RCV CLOCK OFFS APPL\
    GLONASS COD/PHS/BIS";

const OF_20: [u8; 180] = *b"\
    RINEX VERSION / TYPE\
    ANTENNA: DELTA H/E/N\
    ANTENNA: DELTA X/Y/Z\
    ANTENNA: PHASECENTER\
    ANTENNA: B.SIGHT XYZ\
    ANTENNA: ZERODIR AZI\
    ANTENNA: ZERODIR XYZ\
    SIGNAL STRENGTH UNIT\
    GLONASS SLOT / FRQ #";

// Whether this label stands at a place of its group: the first letter, then the rest.
fn stands_at(name: &[u8], group: &[u8], at: usize) -> bool
    requires { (1 ≤ length name.now) × (at + length name.now ≤ length group.now) }
    ensures { result ≡ Lists.same name.now (take (length name.now) (drop at group.now)) }
{
    if name[0] != group[at] {
        return false;
    }
    same(name, &group[at..at + name.len()])
}

// The place of this label in the paper's order, from 0, where it is one. Its group: the labels as long, side by side, and their places.
fn found(name: &[u8], group: &[u8], places: &[u8]) -> Option<usize>
    requires { Sought name.now group.now places.now }
    ensures { given 33 result ≡ place Lists.same (cols 1 20 name.now) labels }
{
    let mut at = 0;
    for p in places {
        if stands_at(name, group, at) {
            return Some(*p as usize);
        }
        at += name.len();
    }
    None
}

// The place of a label that fills its columns. Apart from the others, as an array is made where the function begins that names it.
fn full_place(name: &[u8]) -> Option<usize>
    requires { Cut name.now × (length name.now ≡ 20) }
    ensures { given 33 result ≡ place Lists.same (cols 1 20 name.now) labels }
{
    found(name, &OF_20, &[0, 10, 11, 12, 13, 14, 15, 18, 27])
}

// The place of a label of 17 letters or more.
fn long_place(name: &[u8]) -> Option<usize>
    requires { Cut name.now × (17 ≤ length name.now) }
    ensures { given 33 result ≡ place Lists.same (cols 1 20 name.now) labels }
{
    match name.len() {
        17 => found(name, &OF_17, &[6, 20, 26]),
        18 => found(name, &OF_18, &[23, 24, 25]),
        19 => found(name, &OF_19, &[1, 7, 9, 16, 17, 22, 28]),
        _ => full_place(name),
    }
}

// The place of a label without its trailing blanks.
fn place_of(name: &[u8]) -> Option<usize>
    requires { Cut name.now }
    ensures { given 33 result ≡ place Lists.same (cols 1 20 name.now) labels }
{
    if 17 <= name.len() {
        return long_place(name);
    }
    match name.len() {
        7 => found(name, b"COMMENT", &[2]),
        8 => found(name, b"INTERVAL", &[19]),
        11 => found(name, b"MARKER NAMEMARKER TYPE", &[3, 5]),
        12 => found(name, b"ANT # / TYPELEAP SECONDS", &[8, 29]),
        13 => found(name, b"MARKER NUMBEREND OF HEADER", &[4, 32]),
        14 => found(name, b"PRN / # OF OBS", &[31]),
        15 => found(name, b"# OF SATELLITES", &[30]),
        16 => found(name, b"TIME OF LAST OBS", &[21]),
        _ => None,
    }
}

// The place behind the last of columns 1 to 80 that is filled.
fn label_end(line: &[u8]) -> usize
    ensures { (result ≤ length line.now) × (take result line.now ≡ cut (take 80 line.now)) }
{
    if line.len() <= 80 {
        return cut_length(line);
    }
    cut_length(&line[..80])
}

// The place of a line's label in the paper's order, from 0, where it has one.
fn place_in(line: &[u8]) -> Option<usize>
    ensures { given 33 result ≡ label_place line.now }
{
    let end = label_end(line);
    if end <= 60 {
        return None;
    }
    place_of(&line[60..end])
}

// The same as the rule has it: 33 where it has none.
pub fn label_place(line: &[u8]) -> usize
    ensures { result ≡ label_place line.now }
{
    place_in(line).unwrap_or(NONE)
}

// What the label at a place is.
fn kind(n: usize) -> Label
    ensures { result ≡ kind_at n }
{
    if NONE <= n {
        return Label::Unknown;
    }
    match n {
        0 => Label::Version,
        3 => Label::MarkerName,
        17 => Label::ObsTypes,
        19 => Label::Interval,
        20 => Label::FirstObs,
        25 => Label::ScaleFactor,
        32 => Label::EndOfHeader,
        _ => Label::Other,
    }
}

// What becomes of a line by its label.
pub fn label(line: &[u8]) -> Label
    ensures { result ≡ label_of line.now }
{
    kind(label_place(line))
}
