// Writes whole files.
ghost use Rattle.std.specs.Prelude.{◌≡◌, true, ◌+◌, ◌^◌, ◌<◌, length};
ghost use Rattle.std.proofs.lemmas.List.Edits.{sets};
ghost use Rattle.rinex.specs.Fit.{tables_fit};
ghost use Rattle.rinex.specs.Held.{file_at};
ghost use Rattle.rinex.specs.Lent.{head_of, counts_of};
ghost use Rattle.rinex.specs.Normal.{normal};
ghost use Rattle.rinex.specs.Promises.{Write, Keeps};
ghost use Rattle.lent.specs.Parts.{tables_in};
ghost use Rattle.write_reply.specs.Replies.{told, result_of};

use fits::begin;
use fits::tables::tables_fit;
use lent::Tables;
use lent_room::room_behind;
use measure::whole::text_size;
use rinex::{Counts, Head};
use write_data::epochs::put_epochs;
use write_header::heading::put_header;
use write_reply::{Reply, Unwritten};

// The normal text of fit tables, from a place on.
fn put_tables(head: Head, counts: Counts, tables: &Tables, out: &mut [u8], at: usize)
    requires { (tables_fit (head_of head) (counts_of counts) (tables_in tables.now) ≡ true) × (at + length (normal (file_at (head_of head) (counts_of counts) (tables_in tables.now))) < 2 ^ 64) }
    ensures { out.new ≡ sets out.old at (normal (file_at (head_of head) (counts_of counts) (tables_in tables.now))) }
{
    let used = counts.carried;
    let lines = &tables.carried[..used];
    let top = put_header(head, tables.codes, lines, out, at);
    let start = begin(top.from);
    put_epochs(
        head.lengths,
        counts.epochs,
        &tables.epochs,
        &tables.rows,
        lines,
        start,
        out,
        top.at,
    );
}

// How many bytes are written from a place on, or why none are.
fn written(
    head: Head,
    counts: Counts,
    tables: &Tables,
    out: &mut [u8],
    at: usize,
) -> Result<usize, Unwritten>
    ensures { Keeps result_of (Write (head_of head) (counts_of counts) (tables_in tables.now) out.old out.new at) result }
{
    if !tables_fit(head, counts, tables) {
        return Err(Unwritten::NoText);
    }
    let most = room_behind(out.len(), at);
    let size = text_size(most, head, counts, tables.epochs.clock_states, &tables.rows);
    if most < size {
        return Err(Unwritten::NoRoom);
    }
    put_tables(head, counts, tables, out, at);
    Ok(size)
}

// The normal text of the tables, from a place of a lent buffer on: 20 where no text spells them, else 21 where it has no room. `rinex/specs/Promises.antt`
// has the promise, and `rinex/specs/Theorems.antt` what follows from it. `proofs/Settled.antt`: one reply and one buffer for every input.
pub fn write(head: Head, counts: Counts, tables: &Tables, out: &mut [u8], at: usize) -> Reply
    ensures { Keeps told (Write (head_of head) (counts_of counts) (tables_in tables.now) out.old out.new at) result }
{
    Reply::from(written(head, counts, tables, out, at))
}
