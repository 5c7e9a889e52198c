// The calls of the engine, for C: each with the whole promise of the operation behind it. `engine_c` exports them, and `include/pistrovelle.h` says
// them in C. The tables are parameters of their own, and what is told is numbers, for the C interface.
#![tactic(auto)]

ghost use Rattle.std.specs.Prelude.{◌≡◌, []};
ghost use Rattle.rinex.specs.Codes.{is_taken};
ghost use Rattle.rinex.specs.Fit.{unpacked};
ghost use Rattle.rinex.specs.Lent.{head_of, counts_of, buffers, entry_of};
ghost use Rattle.rinex.specs.Promises.{Write, WriteEpoch, Slotted, Columned, Keeps};
ghost use Rattle.reader.specs.Reading.{Reads};
ghost use Rattle.write_reply.specs.Replies.{told};
ghost use Rattle.slot_answers.specs.Handed;
ghost use Rattle.slot_answers.specs.Handed.{column_of};
ghost use Rattle.engine.specs.Told.{Tells};

use code::known::is_taken;
use lent::{Epochs, Rows, SlotTables, Tables};
use rinex::{Counts, EpochEntry, Head};
use slot_answers::handed::{number_of, value_of};

// How many codes each system's list has, in the order G R E J C I S.
#[repr(C)]
#[derive(Clone, Copy)]
pub struct Lengths {
    pub of: [usize; 7],
}

// Which answer a slot has: 1 metres, 2 cycles, 3 hertz, 4 strength, 5 blank, 6 not declared, 7 no such row, 20 tables that no text spells; and
// the value where it is one of the first four, else 0.
#[repr(C)]
#[derive(Clone, Copy)]
pub struct Slot {
    pub kind: u8,
    pub value: f64,
}

// Reads a text into the lent tables.
pub fn pistrovelle_read(
    text: &[u8],
    codes: &mut [u32],
    times: &mut [u64],
    time_states: &mut [u8],
    flags: &mut [u8],
    tallies: &mut [u16],
    clocks: &mut [i64],
    clock_states: &mut [u8],
    satellites: &mut [u16],
    numbers: &mut [i64],
    states: &mut [u8],
    losses: &mut [u8],
    strengths: &mut [u8],
    carried: &mut [u8],
) -> read_reply::Reply
    ensures { Reads text.now (buffers codes.old times.old time_states.old flags.old tallies.old clocks.old clock_states.old satellites.old numbers.old states.old losses.old strengths.old carried.old) (buffers codes.new times.new time_states.new flags.new tallies.new clocks.new clock_states.new satellites.new numbers.new states.new losses.new strengths.new carried.new) result }
{
    reader::read(
        text,
        codes,
        times,
        time_states,
        flags,
        tallies,
        clocks,
        clock_states,
        satellites,
        numbers,
        states,
        losses,
        strengths,
        carried,
    )
}

// Writes the tables as their normal text, from a place of the lent buffer on.
pub fn pistrovelle_write(
    head: Head,
    counts: Counts,
    codes: &[u32],
    times: &[u64],
    time_states: &[u8],
    flags: &[u8],
    tallies: &[u16],
    clocks: &[i64],
    clock_states: &[u8],
    satellites: &[u16],
    numbers: &[i64],
    states: &[u8],
    losses: &[u8],
    strengths: &[u8],
    carried: &[u8],
    out: &mut [u8],
    at: usize,
) -> write_reply::Reply
    ensures { Keeps told (Write (head_of head) (counts_of counts) (buffers codes.now times.now time_states.now flags.now tallies.now clocks.now clock_states.now satellites.now numbers.now states.now losses.now strengths.now carried.now) out.old out.new at) result }
{
    let tables = Tables {
        codes,
        epochs: Epochs {
            times,
            time_states,
            flags,
            tallies,
            clocks,
            clock_states,
        },
        rows: Rows {
            satellites,
            slots: SlotTables {
                numbers,
                states,
                losses,
                strengths,
            },
        },
        carried,
    };
    writer::whole::write(head, counts, &tables, out, at)
}

// Writes one epoch alone, with which the lent tables begin, from a place of the lent buffer on. The lists have these lengths.
pub fn pistrovelle_write_epoch(
    lengths: Lengths,
    e: EpochEntry,
    codes: &[u32],
    satellites: &[u16],
    numbers: &[i64],
    states: &[u8],
    losses: &[u8],
    strengths: &[u8],
    carried: &[u8],
    out: &mut [u8],
    at: usize,
) -> write_reply::Reply
    ensures { Keeps told (WriteEpoch lengths.of (entry_of e) (buffers codes.now [] [] [] [] [] [] satellites.now numbers.now states.now losses.now strengths.now carried.now) out.old out.new at) result }
{
    let of = lengths.of;
    let rows = Rows {
        satellites,
        slots: SlotTables {
            numbers,
            states,
            losses,
            strengths,
        },
    };
    writer::alone::write_epoch(of, e, codes, &rows, carried, out, at)
}

// The slot of a row and a code.
pub fn pistrovelle_slot(
    head: Head,
    counts: Counts,
    codes: &[u32],
    times: &[u64],
    time_states: &[u8],
    flags: &[u8],
    tallies: &[u16],
    clocks: &[i64],
    clock_states: &[u8],
    satellites: &[u16],
    numbers: &[i64],
    states: &[u8],
    losses: &[u8],
    strengths: &[u8],
    carried: &[u8],
    row: usize,
    code: u32,
) -> Slot
    ensures { Tells (Slotted (head_of head) (counts_of counts) (buffers codes.now times.now time_states.now flags.now tallies.now clocks.now clock_states.now satellites.now numbers.now states.now losses.now strengths.now carried.now) row code) result }
{
    let tables = Tables {
        codes,
        epochs: Epochs {
            times,
            time_states,
            flags,
            tallies,
            clocks,
            clock_states,
        },
        rows: Rows {
            satellites,
            slots: SlotTables {
                numbers,
                states,
                losses,
                strengths,
            },
        },
        carried,
    };
    let a = slots::one::slot(head, counts, &tables, row, code);
    Slot {
        kind: number_of(a),
        value: value_of(a),
    }
}

// What `pistrovelle_slot` answers for a code of one system, for all rows at once.
pub fn pistrovelle_column(
    head: Head,
    counts: Counts,
    codes: &[u32],
    times: &[u64],
    time_states: &[u8],
    flags: &[u8],
    tallies: &[u16],
    clocks: &[i64],
    clock_states: &[u8],
    satellites: &[u16],
    numbers: &[i64],
    states: &[u8],
    losses: &[u8],
    strengths: &[u8],
    carried: &[u8],
    system: usize,
    code: u32,
    kinds: &mut [u8],
    floats: &mut [f64],
) -> slot_answers::Reply
    ensures { Keeps Handed.told (Columned (head_of head) (counts_of counts) (buffers codes.now times.now time_states.now flags.now tallies.now clocks.now clock_states.now satellites.now numbers.now states.now losses.now strengths.now carried.now) system code (column_of kinds.old floats.old) (column_of kinds.new floats.new)) result }
{
    let tables = Tables {
        codes,
        epochs: Epochs {
            times,
            time_states,
            flags,
            tallies,
            clocks,
            clock_states,
        },
        rows: Rows {
            satellites,
            slots: SlotTables {
                numbers,
                states,
                losses,
                strengths,
            },
        },
        carried,
    };
    slots::all::column(head, counts, &tables, system, code, kinds, floats)
}

// Whether a code is taken under a system, as reading and writing take it.
pub fn pistrovelle_is_taken(system: usize, code: u32) -> bool
    ensures { result ≡ is_taken system (unpacked code) }
{
    is_taken(system, code)
}
