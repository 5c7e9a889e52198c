// The line that begins at a place of a text: where it ends, or its fault.
#![tactic(auto)]

ghost use Rattle.std.specs.Prelude.{◌≡◌, length};
ghost use Rattle.line.specs.Text.{are_plain};
ghost use Rattle.find_line.specs.Promises.{PlainEnd, Finds};
ghost use Rattle.find_line.specs.Steps.{Skips};

// The line that begins at a place of a text. No Result: what `Finds` says of a line that is too long has a place too.
#[derive(Clone, Copy)]
pub enum Found {
    // The text ends there.
    Over,
    // It has a byte outside 32 to 126, or no LF.
    Faulty,
    // It ends before this place, where its LF stands, and is longer than 1,027 columns.
    Long(usize),
    // It ends before this place, where its LF stands.
    Ends(usize),
}

// Whether the bytes of a block are 32 to 126. The loop has no exit, so that the compiler takes the 16 in one step.
fn all_plain(block: &[u8]) -> bool
    ensures { result ≡ are_plain block.now }
{
    let mut others = false;
    for b in block {
        others = others | (*b < 32) | (126 < *b);
    }
    !others
}

// A place up to which every byte from `at` on is 32 to 126, by blocks of 16.
fn skip_blocks(text: &[u8], at: usize) -> usize
    ensures { Skips text.now at result }
{
    if text.len() <= at {
        return at;
    }
    let mut i = at;
    // No plainer by chunks: the place is what is asked for, and would have to be counted beside the blocks.
    while 16 <= text.len() - i {
        let next = i + 16;
        if !all_plain(&text[i..next]) {
            return i;
        }
        i = next;
    }
    i
}

// The place of the first byte from `at` on that is outside 32 to 126; the text's length where there is none.
pub fn plain_end(text: &[u8], at: usize) -> usize
    ensures { PlainEnd text.now at result }
{
    for i in skip_blocks(text, at)..text.len() {
        if !(32..=126).contains(&text[i]) {
            return i;
        }
    }
    text.len()
}

// The line that begins at a place. The first byte of another kind is its LF, or its fault.
pub fn find(text: &[u8], at: usize) -> Found
    ensures { Finds text.now at result }
{
    if text.len() <= at {
        return Found::Over;
    }
    let end = plain_end(text, at);
    if text.len() <= end {
        return Found::Faulty;
    }
    if text[end] != 10 {
        return Found::Faulty;
    }
    if 1027 < end - at {
        return Found::Long(end);
    }
    Found::Ends(end)
}
