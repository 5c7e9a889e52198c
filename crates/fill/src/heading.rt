// The lines of an accepted header.
ghost use Rattle.std.specs.Prelude.{◌≡◌, ◌+◌, ◌^◌, ◌≤◌, ◌<◌, length};
ghost use Rattle.line.specs.Text.{longest, split};
ghost use Rattle.label.specs.declared.Label.TheVariants.{Other};
ghost use Rattle.label.specs.Labels.{label_of};
ghost use Rattle.fill.specs.Fill.{head_from, carried_from, nothing_read};
ghost use Rattle.fill.specs.Filling.{rest_of, Lined, HeadPut};

use crate::HeadRest;
use judge::reached::line_end;
use label::Label;
use label::named::label;
use put_line::put_line;

// A header line that is carried.
fn head_carried(h: HeadRest, line: &[u8], carried: &mut [u8]) -> HeadRest
    requires { (h.lines + 1 < 2 ^ 64) × (h.carried + (length line.now + 1) < 2 ^ 64) }
    ensures { HeadPut h result line.now Other carried.old carried.new }
{
    HeadRest {
        lines: h.lines + 1,
        carried: put_line(h.carried, line, carried),
        ..h
    }
}

// A header line, by its label.
#[tactic(auto, unfolding(crate::specs::Fill::head_after, crate::specs::Fill::carried_put))]
fn head_line(h: HeadRest, line: &[u8], carried: &mut [u8]) -> HeadRest
    requires { (h.lines + 1 < 2 ^ 64) × (h.carried + (length line.now + 1) < 2 ^ 64) }
    ensures { HeadPut h result line.now (label_of line.now) carried.old carried.new }
{
    match label(line) {
        Label::FirstObs => HeadRest {
            first: header::first::first_time(line).unwrap_or(0),
            time_system: header::first::time_system(line),
            ..h
        },
        Label::Interval => HeadRest {
            interval: Some(header::interval::interval(line)),
            ..h
        },
        Label::MarkerName | Label::Other => head_carried(h, line, carried),
        Label::Version
        | Label::ObsTypes
        | Label::EndOfHeader
        | Label::ScaleFactor
        | Label::Unknown => h,
    }
}

// The first lines of a text: what they say, and those of them that are carried.
pub fn fill_header(text: &[u8], lines: usize, carried: &mut [u8]) -> HeadRest
    requires { Lined text.now × (length text.now ≤ longest) }
    ensures result_value { rest_of result ≡ head_from lines nothing_read (split text.now) }
    ensures carried_after { carried.new ≡ carried_from lines nothing_read carried.old (split text.now) }
{
    let mut h = HeadRest {
        first: 0,
        time_system: 0,
        interval: None,
        lines: 0,
        carried: 0,
    };
    let mut at = 0;
    for _ in 0..lines {
        if text.len() <= at {
            return h;
        }
        let end = line_end(text, at);
        h = head_line(h, &text[at..end], carried);
        at = end + 1;
    }
    h
}
