// What is told of a writing.
#![tactic(auto)]

ghost use Rattle.std.specs.Prelude.{◌≡◌};
ghost use Rattle.write_reply.specs.Replies.{told, write_meant};

// Why nothing is written.
#[derive(Clone, Copy, Debug, PartialEq, Eq)]
pub enum Unwritten {
    // No text spells what is lent.
    NoText,
    // The text has no room.
    NoRoom,
}

// The count of bytes written where the number is 0; else a refusal, of line 0.
#[repr(C)]
#[derive(Clone, Copy)]
pub struct Reply {
    pub number: usize,
    pub line: usize,
    pub count: usize,
}

impl From<Result<usize, Unwritten>> for Reply {
    // So many bytes are written, or why none are.
    fn from(written: Result<usize, Unwritten>) -> Reply
        ensures { result ≡ told (write_meant written) }
    {
        let (number, count) = match written {
            Ok(count) => (0, count),
            Err(Unwritten::NoText) => (20, 0),
            Err(Unwritten::NoRoom) => (21, 0),
        };
        Reply {
            number,
            line: 0,
            count,
        }
    }
}
