// Goes over the script line by line. The first byte of a line says what it is:
//   #  a remark; a line without a byte is one too
//   [  a piece, by a letter, whose lines follow up to ]
//   :  a case, by its name; its base, the text that `read` makes the tables of, starts empty
//   ;  a case with the base of the one before
//   |  a line of the base; - a part of a line; ~ a byte by its number, so many times; + a piece, once or so many times
//   "  the same in the text that is due; where no line says it, the base is due
//   =  a patch of the tables: a table, a place in it and the value there, or a field and its value
//   @  a patch of the carried bytes from a place of five digits on, by a line, a part of a line, or a byte so many times
//   %  the lengths of the thirteen lent tables, in the order of `write`; they are lent whole where it isn't said
//   w  the call of `write`: the number that is due, the buffer's length and the place; all of it and 0 where it isn't said
//   e  the same of `write_epoch`, for the first entry of the epoch table
use crate::answer::as_due;
use crate::tried::tried;
use cases::kept::Prefilled;
use cases::lines::{ScriptLine, lines_of, strange};
use cases::room::cut;
use cases::texts::put_line;
use cases::words::{first, nth, part};
use std::io;

// The name, the script behind its line and as much of that as the patches take, the line of the room, the lengths of both texts, whether a
// piece is under way, and how many calls were made, and how many with another answer than is due.
#[derive(Clone, Copy)]
struct Case<'a> {
    name: &'a [u8],
    behind: &'a [u8],
    patches: &'a [u8],
    room: &'a [u8],
    base: usize,
    due: usize,
    within: bool,
    calls: usize,
    others: usize,
}

fn named<'a>(case: Case<'a>, name: &'a [u8], behind: &'a [u8], base: usize) -> Case<'a> {
    Case {
        name,
        behind,
        patches: &[],
        room: &[],
        base,
        due: 0,
        ..case
    }
}

// The patches lie between the line of the name and the last one.
fn patched<'a>(case: Case<'a>, behind: &[u8]) -> Case<'a> {
    let end = case.behind.len().saturating_sub(behind.len());
    Case {
        patches: part(case.behind, 0, end),
        ..case
    }
}

fn counted(case: Case<'_>, as_due: bool) -> Case<'_> {
    Case {
        calls: case.calls.saturating_add(1),
        others: case.others.saturating_add(usize::from(!as_due)),
        ..case
    }
}

fn called<'a>(
    rt: &impl Print,
    case: Case<'a>,
    base: &[u8],
    due: &[u8],
    call: &[u8],
) -> io::Result<Case<'a>> {
    let text = part(base, 0, case.base);
    let due = if case.due == 0 {
        text
    } else {
        part(due, 0, case.due)
    };
    let mut out = [u8::FILLED; 81920];
    let r = tried(
        text,
        case.patches,
        case.room,
        call,
        cut(&mut out, nth(call, 1)),
    );
    rt.write_all(case.name)?;
    Ok(counted(case, as_due(rt, &r, &out, due, call)?))
}

fn outside<'a>(
    rt: &impl Print,
    case: Case<'a>,
    script: &[u8],
    base: &mut [u8],
    due: &mut [u8],
    line: ScriptLine<'a>,
) -> io::Result<Case<'a>> {
    Ok(match line.text {
        [] | [b'#' | b' ', ..] => case,
        [b'[', ..] => Case {
            within: true,
            ..case
        },
        [b':', name @ ..] => named(case, name, line.behind, 0),
        [b';', name @ ..] => named(case, name, line.behind, case.base),
        [b'%', ..] => Case {
            room: line.text,
            ..case
        },
        [b'=' | b'@', ..] => patched(case, line.behind),
        [b'|' | b'-' | b'~' | b'+', ..] => Case {
            base: put_line(base, case.base, script, line.text),
            ..case
        },
        [b'"', owed @ ..] => Case {
            due: put_line(due, case.due, script, owed),
            ..case
        },
        [b'w' | b'e', ..] => called(rt, case, base, due, line.text)?,
        _ => {
            strange(rt, line.text)?;
            case
        }
    })
}

// The same in shape as in `edges_read`, but of a case of its own and two texts in place of one.
fn step<'a>(
    rt: &impl Print,
    case: Case<'a>,
    script: &[u8],
    base: &mut [u8],
    due: &mut [u8],
    line: ScriptLine<'a>,
) -> io::Result<Case<'a>> {
    if !case.within {
        return outside(rt, case, script, base, due, line);
    }
    Ok(Case {
        within: first(line.text) != b']',
        ..case
    })
}

pub fn run(rt: &impl Print, script: &[u8], base: &mut [u8], due: &mut [u8]) -> io::Result<()> {
    let mut case = Case {
        name: &[],
        behind: script,
        patches: &[],
        room: &[],
        base: 0,
        due: 0,
        within: false,
        calls: 0,
        others: 0,
    };
    for line in lines_of(script) {
        case = step(rt, case, script, base, due, line)?;
    }
    println!(rt; "{} calls, {} not as due", case.calls, case.others)
}
