// What a line without a fault settles: the state behind it. specs/Judge.antt says which.
ghost use Rattle.std.specs.Prelude.{◌≡◌, true, cond, ◌||◌, ℕ, ◌+◌, ◌-◌, ◌^◌, ◌≤◌, ◌<◌, eqb, length, get_or};
ghost use Rattle.label.specs.declared.Label.TheVariants.{ObsTypes, MarkerName};
ghost use Rattle.label.specs.Labels.{label_of, is};
ghost use Rattle.rinex.specs.Tests.{system_at};
ghost use Rattle.state.specs.declared.Stage.TheVariants as stages;
ghost use Rattle.state.specs.Judge;
ghost use Rattle.state.specs.Judge.{after_event, after_observed, after_row, after_line, carried_with, slots_of_row, next_at};

use crate::{Stage, State};
use code_list::in_line;
use epoch::fields::{count_at, flag_at};
use epoch::time::epoch_time;
use label::Label;
use label::named::label;
use label::ranks::is;
use line::within::{column, cut_length};
use systems::codes_of;

// The stage where none are left, or where some are.
fn stage_of(left: usize, none: Stage, some: Stage) -> Stage
    ensures { result ≡ cond (eqb left 0) none some }
{
    if left == 0 { none } else { some }
}

#[tactic(auto, unfolding(crate::specs::Judge::next_at))]
pub fn after_version(c: State, line: &[u8]) -> State
    ensures { result ≡ next_at stages.Version c line.now }
{
    State {
        stage: Stage::Record,
        letter: column(line, 41),
        first: false,
        interval: false,
        ..c
    }
}

// After n more codes of a system, with some left.
fn listed(c: State, system: usize, n: usize, left: usize) -> State
    requires { (length c.lengths ≡ 7) × ((system < 7) × ((n ≤ 13) × (get_or c.lengths system 0 ≤ 64))) }
    ensures { result ≡ Judge.listed c system n left }
{
    let mut lengths = c.lengths;
    lengths[system] += n;
    State {
        stage: stage_of(left, Stage::Record, Stage::Continuation),
        system,
        left,
        lengths,
        ..c
    }
}

// After a line is carried.
#[tactic(auto, using(line::proofs::Columns::cut_size))]
fn kept(c: State, stage: Stage, left: usize, marked: bool, line: &[u8]) -> State
    requires { carried_with c line.now < 2 ^ 64 }
    ensures { result ≡ Judge.kept c stage left marked line.now }
{
    let mut used = c.used;
    used.carried += cut_length(line) + 1;
    State {
        stage,
        left,
        marked,
        used,
        ..c
    }
}

// After a list's line.
#[tactic(auto, unfolding(crate::specs::Judge::after_record))]
fn after_list(c: State, line: &[u8]) -> State
    requires { (length c.lengths ≡ 7) × ((system_at line.now < 7) × ((y : ℕ) → get_or c.lengths y 0 ≤ 64)) }
    ensures { result ≡ Judge.after_record c line.now ObsTypes }
{
    let count = code_list::list_count(line);
    let n = in_line(count);
    listed(c, systems::system_at(line), n, count - n)
}

// After a continuation of a list.
#[tactic(auto, unfolding(crate::specs::Judge::next_at))]
pub fn after_next(c: State, line: &[u8]) -> State
    requires { (length c.lengths ≡ 7) × ((c.system < 7) × ((y : ℕ) → get_or c.lengths y 0 ≤ 64)) }
    ensures { result ≡ next_at stages.Continuation c line.now }
{
    let n = in_line(c.left);
    listed(c, c.system, n, c.left - n)
}

// After a header record.
#[tactic(auto, unfolding(crate::specs::Judge::next_at, crate::specs::Judge::after_record))]
pub fn after_record(c: State, line: &[u8]) -> State
    requires lengths_len { (length c.lengths ≡ 7) × ((y : ℕ) → get_or c.lengths y 0 ≤ 64) }
    requires line_bound { (is ObsTypes (label_of line.now) ≡ true → system_at line.now < 7) × (carried_with c line.now < 2 ^ 64) }
    ensures { result ≡ next_at stages.Record c line.now }
{
    match label(line) {
        Label::ObsTypes => after_list(c, line),
        Label::FirstObs => State {
            stage: Stage::Record,
            first: true,
            ..c
        },
        Label::Interval => State {
            stage: Stage::Record,
            interval: true,
            ..c
        },
        Label::EndOfHeader => State {
            stage: Stage::Epoch,
            ..c
        },
        Label::MarkerName | Label::Other => kept(c, Stage::Record, c.left, c.marked, line),
        Label::Version | Label::ScaleFactor | Label::Unknown => c,
    }
}

// After the record of an event.
#[tactic(auto, unfolding(crate::specs::Judge::after_event))]
fn after_event(c: State, line: &[u8]) -> State
    requires { c.used.epochs + 1 < 2 ^ 64 }
    ensures { result ≡ after_event c line.now }
{
    let count = count_at(line);
    let mut used = c.used;
    used.epochs += 1;
    State {
        stage: stage_of(count, Stage::Epoch, Stage::Event),
        left: count,
        flag: flag_at(line),
        marked: false,
        used,
        ..c
    }
}

// After the record of an epoch of flag 0 or 1.
#[tactic(auto, unfolding(crate::specs::Judge::after_observed))]
fn after_observed(c: State, line: &[u8]) -> State
    requires { c.used.epochs + 1 < 2 ^ 64 }
    ensures { result ≡ after_observed c line.now }
{
    let count = count_at(line);
    let mut used = c.used;
    used.epochs += 1;
    State {
        stage: stage_of(count, Stage::Epoch, Stage::Row),
        left: count,
        flag: flag_at(line),
        last: Some(epoch_time(line).unwrap_or(0)),
        used,
        ..c
    }
}

#[tactic(auto, using(std::proofs::lemmas::Bool::Decides::nat_tests), unfolding(crate::specs::Judge::next_at))]
pub fn after_epoch(c: State, line: &[u8]) -> State
    requires { c.used.epochs + 1 < 2 ^ 64 }
    ensures { result ≡ next_at stages.Epoch c line.now }
{
    if (2..=5).contains(&flag_at(line)) {
        after_event(c, line)
    } else {
        after_observed(c, line)
    }
}

#[tactic(auto, unfolding(crate::specs::Judge::after_row))]
pub fn after_row(c: State, line: &[u8]) -> State
    requires { (length c.lengths ≡ 7) × ((c.used.rows + 1 < 2 ^ 64) × (c.used.slots + slots_of_row c line.now < 2 ^ 64)) }
    ensures { result ≡ after_row c line.now }
{
    let lengths = c.lengths;
    let n = codes_of(lengths, systems::system_at(line));
    let left = c.left.saturating_sub(1);
    let mut used = c.used;
    used.rows += 1;
    used.slots += n;
    State {
        stage: stage_of(left, Stage::Epoch, Stage::Row),
        left,
        used,
        ..c
    }
}

#[tactic(auto, unfolding(crate::specs::Judge::after_line))]
pub fn after_line(c: State, line: &[u8]) -> State
    requires { carried_with c line.now < 2 ^ 64 }
    ensures { result ≡ after_line c line.now }
{
    let left = c.left.saturating_sub(1);
    let marked = c.marked || is(Label::MarkerName, label(line));
    kept(
        c,
        stage_of(left, Stage::Epoch, Stage::Event),
        left,
        marked,
        line,
    )
}
