// The fields of a head and the counts, after all patches of a case.
use crate::patch::names;
use cases::lines::lines_of;
use cases::texts::byte_of;
use cases::words::{MISSING, nth};
use rinex::{Counts, Head};

// What a field holds after all patches: the first number of the last line that patches it.
fn field(held: usize, name: &str, lines: &[u8]) -> usize {
    lines_of(lines)
        .filter(|line| names(line.text, name))
        .last()
        .map_or(held, |line| nth(line.text, 0).unwrap_or(MISSING))
}

// The lengths of the lists, by the letters of the systems.
fn lengths(held: &[usize; 7], lines: &[u8]) -> [usize; 7] {
    [
        field(held[0], "G", lines),
        field(held[1], "R", lines),
        field(held[2], "E", lines),
        field(held[3], "J", lines),
        field(held[4], "C", lines),
        field(held[5], "I", lines),
        field(held[6], "S", lines),
    ]
}

pub fn head(head: &Head, lines: &[u8]) -> Head {
    Head {
        letter: byte_of(field(usize::from(head.letter), "letter", lines)),
        lengths: lengths(&head.lengths, lines),
        first: field(head.first as usize, "first", lines) as u64,
        time_system: field(head.time_system, "time_system", lines),
        interval_state: byte_of(field(usize::from(head.interval_state), "interval_state", lines)),
        interval: field(head.interval as usize, "interval", lines) as u64,
        lines: field(head.lines, "lines", lines),
    }
}

pub fn counts(counts: Counts, lines: &[u8]) -> Counts {
    Counts {
        epochs: field(counts.epochs, "epochs", lines),
        rows: field(counts.rows, "rows", lines),
        slots: field(counts.slots, "slots", lines),
        carried: field(counts.carried, "bytes", lines),
    }
}
