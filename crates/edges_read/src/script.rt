// Goes over the script line by line. The first byte of a line says what it is:
//   #  a remark; a line without a byte is one too
//   [  a piece, by a letter, whose lines follow up to ]
//   :  a case, by its name; its text starts empty and its room is all there is
//   ;  a case with the text of the one before
//   |  a line of the text; - a part of a line; ~ a byte by its number, so many times
//   +  a piece, once or so many times
//   %  the lengths of the thirteen buffers, in the order of `read`
//   !  the call; the number and line of the refusal that is due
//   .  the call; the counts of codes, epochs, rows, slots and carried bytes of the acceptance that is due
//   &  the same, and the entries are shown
use crate::tried::tried;
use cases::lines::{lines_of, strange};
use cases::texts::put_line;
use cases::words::{first, part};
use std::io;

// The name and the line of the room that the script gives it, the length of the text, and whether a piece is under way.
#[derive(Clone, Copy)]
struct Case<'a> {
    name: &'a [u8],
    room: &'a [u8],
    size: usize,
    within: bool,
}

fn outside<'a>(
    rt: &impl Print,
    case: Case<'a>,
    script: &[u8],
    text: &mut [u8],
    line: &'a [u8],
) -> io::Result<Case<'a>> {
    Ok(match line {
        [] | [b'#' | b' ', ..] => case,
        [b'[', ..] => Case {
            within: true,
            ..case
        },
        [b':', name @ ..] => Case {
            name,
            room: &[],
            size: 0,
            ..case
        },
        [b';', name @ ..] => Case {
            name,
            room: &[],
            ..case
        },
        [b'%', ..] => Case { room: line, ..case },
        [b'|' | b'-' | b'~' | b'+', ..] => Case {
            size: put_line(text, case.size, script, line),
            ..case
        },
        [b'!' | b'.' | b'&', ..] => {
            tried(rt, case.name, part(text, 0, case.size), case.room, line)?;
            case
        }
        _ => {
            strange(rt, line)?;
            case
        }
    })
}

// The same in shape as in `edges_write`, but of a case of its own and one text in place of two.
fn step<'a>(
    rt: &impl Print,
    case: Case<'a>,
    script: &[u8],
    text: &mut [u8],
    line: &'a [u8],
) -> io::Result<Case<'a>> {
    if !case.within {
        return outside(rt, case, script, text, line);
    }
    Ok(Case {
        within: first(line) != b']',
        ..case
    })
}

pub fn run(rt: &impl Print, script: &[u8], text: &mut [u8]) -> io::Result<()> {
    let mut case = Case {
        name: &[],
        room: &[],
        size: 0,
        within: false,
    };
    for line in lines_of(script) {
        case = step(rt, case, script, text, line.text)?;
    }
    Ok(())
}
