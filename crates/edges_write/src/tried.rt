// One case: the base is read into tables, these are patched, and a call is made on them.
use crate::calls;
use cases::tables::CaseTables;
use cases::words::first;
use patched::fields;
use patched::tables::made;
use write_reply::Reply;

pub fn tried(base: &[u8], lines: &[u8], room: &[u8], call: &[u8], out: &mut [u8]) -> Reply {
    let mut lent = CaseTables::filled();
    let r = made(base, lines, &mut lent);
    // A base that `read` refuses is told by its number, which is never due.
    if r.number != 0 {
        return Reply {
            number: r.number,
            line: r.line,
            count: 0,
        };
    }
    let head = fields::head(&r.head, lines);
    if first(call) == b'e' {
        return calls::alone(call, room, head.lengths, &lent, out);
    }
    let used = fields::counts(r.counts, lines);
    calls::whole(call, room, head, used, &lent, out)
}
