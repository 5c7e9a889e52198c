// The fault of a line, if it has one: that of the lowest number that it earns at its stage. state/specs/Judge.antt says which.
#![tactic(auto)]

ghost use Rattle.std.specs.Prelude.{◌≡◌, ℕ, ◌+◌, ◌*◌, ◌≤◌, ◌<◌, false, not, ◌&&◌, ◌||◌, eqb, leb, ltb, length, get_or, OnOk};
ghost use Rattle.lists.specs.Blank.{is_blank};
ghost use Rattle.lists.specs.Maybe;
ghost use Rattle.label.specs.declared.Label.TheVariants.{ObsTypes, MarkerName};
ghost use Rattle.line.specs.Text.{cols};
ghost use Rattle.label.specs.Labels.{label_of, is};
ghost use Rattle.rinex.specs.Tests.{count_at, epoch_time};
ghost use Rattle.code_list.specs.Lines.{CodesStored};
ghost use Rattle.state.specs.declared.Stage.TheVariants as stages;
ghost use Rattle.state.specs.Faults.{fault_number};
ghost use Rattle.state.specs.Judge.{version_fault, label_fault, record_fault, next_fault, epoch_fault, row_fault, line_fault, comes_again, is_unfit, lacks_room, is_late, carried_with, codes_in, table_at};
ghost use Rattle.lists.specs.Lists.{sum};

use code_list::{in_line, some_list};
use epoch::fields::{count_at, flag_at};
use epoch::fitness::epoch_fits;
use epoch::time::epoch_time;
use label::Label;
use label::named::label;
use label::ranks::{is, is_barred};
use line::within::{blank_columns, blank_past, cut_length};
use row::slots_fit;
use satellite::{name_of, number_at, satellite_fits};
use state::fault::LineFault;
use state::{Room, State};
use systems::codes_of;

// A label that is no known one or SYS / SCALE FACTOR, or a filled column past 80.
#[tactic(auto, unfolding(state::specs::Judge::label_fault))]
fn label_fault(k: Label, line: &[u8]) -> bool
    ensures { result ≡ label_fault k line.now }
{
    is(Label::Unknown, k) || !blank_past(line, 80) || is(Label::ScaleFactor, k)
}

// There is no room for the line, cut, with its LF.
#[tactic(auto, using(std::proofs::lemmas::Bool::Decides::nat_tests, line::proofs::Columns::cut_size))]
fn lacks_carried(room: Room, c: State, line: &[u8]) -> bool
    ensures { result ≡ ltb room.carried (carried_with c line.now) }
{
    room.carried.saturating_sub(c.used.carried) <= cut_length(line)
}

#[tactic(auto, unfolding(state::specs::Judge::version_fault))]
pub fn version_fault(line: &[u8]) -> Result<(), LineFault>
    ensures { fault_number result ≡ version_fault line.now }
{
    if header::version::version_fits(line) {
        Ok(())
    } else {
        Err(LineFault::NoVersion)
    }
}

// The header lacks a list or TIME OF FIRST OBS.
fn is_unready(c: State) -> bool
    requires { length c.lengths ≡ 7 }
    ensures { result ≡ not (leb 1 (sum c.lengths) && c.first) }
{
    !some_list(c.lengths) || !c.first
}

// A header record that has come already, or comes too early.
#[tactic(auto, unfolding(state::specs::Judge::comes_again))]
fn comes_again(c: State, line: &[u8], k: Label) -> bool
    requires { length c.lengths ≡ 7 }
    ensures { result ≡ comes_again c line.now k }
{
    match k {
        Label::Version => true,
        Label::ObsTypes => 1 <= codes_of(c.lengths, systems::system_at(line)),
        Label::FirstObs => c.first,
        Label::Interval => c.interval,
        Label::EndOfHeader => is_unready(c),
        Label::ScaleFactor | Label::MarkerName | Label::Other | Label::Unknown => false,
    }
}

// A header record of this label whose fields are unfit; the codes of a list's line that is fit go to the table.
#[tactic(auto, using(crate::proofs::Headed::table_stays, crate::proofs::Headed::table_put), unfolding(state::specs::Judge::is_unfit))]
fn is_unfit(c: State, table: &mut [u32], line: &[u8], k: Label) -> bool
    requires { (length table.old ≡ 448) × (k ≡ label_of line.now) }
    ensures { (result ≡ is_unfit c line.now k) × (result ≡ false → table.new ≡ table_at stages.Record c line.now table.old) }
{
    match k {
        Label::ObsTypes => !code_list::list_fits(line, c.letter, table),
        Label::FirstObs => !header::first::first_fits(line),
        Label::Interval => !header::interval::interval_fits(line),
        Label::EndOfHeader => !blank_columns(line, 1, 60),
        Label::Version | Label::ScaleFactor | Label::MarkerName | Label::Other | Label::Unknown =>
            false,
    }
}

// There is no room for n codes from a place on.
fn lacks_codes(room: Room, from: usize, n: usize) -> bool
    requires { (from ≤ 512) × (n ≤ 13) }
    ensures { result ≡ ltb room.codes (from + n) }
{
    room.codes < from + n
}

// There is no room for what a header record of this label declares.
#[tactic(auto, unfolding(state::specs::Judge::lacks_room))]
fn lacks_room(room: Room, c: State, line: &[u8], k: Label) -> bool
    ensures { result ≡ lacks_room room c line.now k }
{
    match k {
        Label::ObsTypes => lacks_codes(
            room,
            64 * systems::system_at(line),
            in_line(code_list::list_count(line)),
        ),
        Label::MarkerName | Label::Other => lacks_carried(room, c, line),
        Label::Version
        | Label::FirstObs
        | Label::Interval
        | Label::EndOfHeader
        | Label::ScaleFactor
        | Label::Unknown => false,
    }
}

#[tactic(auto, unfolding(state::specs::Judge::record_fault))]
pub fn record_fault(room: Room, c: State, table: &mut [u32], line: &[u8]) -> Result<(), LineFault>
    requires { (length table.old ≡ 448) × (length c.lengths ≡ 7) }
    ensures { (fault_number result ≡ record_fault room c (label_of line.now) line.now) × OnOk result (table.new ≡ table_at stages.Record c line.now table.old) }
{
    let k = label(line);
    if label_fault(k, line) {
        return Err(LineFault::NoLabel);
    }
    if comes_again(c, line, k) {
        return Err(LineFault::OutOfPlace);
    }
    if is_unfit(c, table, line, k) {
        return Err(LineFault::UnfitHeader);
    }
    if lacks_room(room, c, line, k) {
        return Err(LineFault::NoRoom);
    }
    Ok(())
}

// A line that is no continuation of a list.
fn is_other(line: &[u8], k: Label) -> bool
    ensures { result ≡ (not (is ObsTypes k) || not (is_blank (cols 1 6 line.now))) }
{
    !is(Label::ObsTypes, k) || !blank_columns(line, 1, 6)
}

#[tactic(auto, unfolding(state::specs::Judge::next_fault))]
pub fn next_fault(room: Room, c: State, table: &mut [u32], line: &[u8]) -> Result<(), LineFault>
    requires table_len { (length table.old ≡ 448) × ((length c.lengths ≡ 7) × ((c.system < 7) × (get_or c.lengths c.system 0 + c.left ≤ 64))) }
    requires system_len { (length (codes_in c table.old c.system) ≡ get_or c.lengths c.system 0) × CodesStored table.old (64 * c.system) (codes_in c table.old c.system) }
    ensures { (fault_number result ≡ next_fault room c table.old (label_of line.now) line.now) × OnOk result (table.new ≡ table_at stages.Continuation c line.now table.old) }
{
    let k = label(line);
    if label_fault(k, line) {
        return Err(LineFault::NoLabel);
    }
    if is_other(line, k) {
        return Err(LineFault::OutOfPlace);
    }
    let before = codes_of(c.lengths, c.system);
    if !code_list::next_fits(line, c.system, before, c.left, table) {
        return Err(LineFault::UnfitHeader);
    }
    if lacks_codes(room, 64 * c.system + before, in_line(c.left)) {
        return Err(LineFault::NoRoom);
    }
    Ok(())
}

// A time that is not later than that of the last epoch of flag 0 or 1.
#[tactic(auto, unfolding(state::specs::Judge::is_late))]
fn is_late(c: State, line: &[u8]) -> bool
    ensures { result ≡ is_late c (Maybe.given 0 (epoch_time line.now)) }
{
    c.last
        .is_some_and(|last| epoch_time(line).unwrap_or(0) <= last)
}

// An epoch of flag 0 or 1 that is not later than the last one.
fn comes_late(c: State, flag: usize, line: &[u8]) -> bool
    ensures { result ≡ (leb flag 1 && is_late c (Maybe.given 0 (epoch_time line.now))) }
{
    flag <= 1 && is_late(c, line)
}

// A flag 3 event without lines.
fn lacks_lines(flag: usize, line: &[u8]) -> bool
    ensures { result ≡ (eqb flag 3 && eqb (count_at line.now) 0) }
{
    flag == 3 && count_at(line) == 0
}

#[tactic(auto, using(std::proofs::lemmas::Bool::Decides::nat_tests), unfolding(state::specs::Judge::epoch_fault))]
pub fn epoch_fault(room: Room, c: State, line: &[u8]) -> Result<(), LineFault>
    ensures { fault_number result ≡ epoch_fault room c line.now }
{
    if !epoch_fits(line) {
        return Err(LineFault::NoEpoch);
    }
    let flag = flag_at(line);
    if 6 <= flag {
        return Err(LineFault::OtherFlag);
    }
    if comes_late(c, flag, line) {
        return Err(LineFault::NotLater);
    }
    if lacks_lines(flag, line) {
        return Err(LineFault::NoMarkerName);
    }
    if room.epochs <= c.used.epochs {
        return Err(LineFault::NoRoom);
    }
    Ok(())
}

// There is no room for a row of n slots.
#[tactic(auto, using(std::proofs::lemmas::Bool::Decides::nat_tests))]
fn lacks_slots(room: Room, c: State, n: usize) -> bool
    ensures { result ≡ (ltb room.rows (c.used.rows + 1) || ltb room.slots (c.used.slots + n)) }
{
    room.rows <= c.used.rows || room.slots < c.used.slots || room.slots - c.used.slots < n
}

#[tactic(auto, unfolding(state::specs::Judge::row_fault))]
pub fn row_fault(room: Room, c: State, seen: &[usize], line: &[u8]) -> Result<(), LineFault>
    requires { (length seen.now ≡ 700) × ((length c.lengths ≡ 7) × ((y : ℕ) → get_or c.lengths y 0 ≤ 64)) }
    ensures { fault_number result ≡ row_fault room c seen.now line.now }
{
    if !satellite_fits(line) {
        return Err(LineFault::NoSatellite);
    }
    let system = systems::system_at(line);
    let n = codes_of(c.lengths, system);
    if n == 0 {
        return Err(LineFault::NoList);
    }
    let name = name_of(system, number_at(line));
    if seen[name] == c.used.epochs {
        return Err(LineFault::SatelliteAgain);
    }
    if !slots_fit(line, n) {
        return Err(LineFault::UnfitSlot);
    }
    if lacks_slots(room, c, n) {
        return Err(LineFault::NoRoom);
    }
    Ok(())
}

// The last line of a flag 3 event, and none was MARKER NAME.
fn lacks_marker(c: State, k: Label) -> bool
    ensures { result ≡ (eqb c.flag 3 && (eqb c.left 1 && not (c.marked || is MarkerName k))) }
{
    c.flag == 3 && c.left == 1 && !(c.marked || is(Label::MarkerName, k))
}

#[tactic(auto, unfolding(state::specs::Judge::line_fault))]
pub fn line_fault(room: Room, c: State, line: &[u8]) -> Result<(), LineFault>
    ensures { fault_number result ≡ line_fault room c (label_of line.now) line.now }
{
    let k = label(line);
    if label_fault(k, line) || is_barred(k) {
        return Err(LineFault::NoLabel);
    }
    if lacks_marker(c, k) {
        return Err(LineFault::NoMarkerName);
    }
    if lacks_carried(room, c, line) {
        return Err(LineFault::NoRoom);
    }
    Ok(())
}
