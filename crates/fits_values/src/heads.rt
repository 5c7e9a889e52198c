// What is said of a file by value.
ghost use Rattle.std.specs.Prelude.{◌≡◌, ◌&&◌, eqb, ltb, pos};
ghost use Rattle.write_field.specs.Normal.{decimal_fits};
ghost use Rattle.rinex.specs.Fit.{state_fits, head_fits};
ghost use Rattle.rinex.specs.Lent.{head_of};

use crate::numbers::is_time;
use rinex::Head;
use systems::is_file_letter;

// None, or thousandths of a second above 0 that 10 columns hold.
#[tactic(auto, unfolding(write_field::specs::Normal::decimal_fits))]
fn interval_fits(state: u8, n: u64) -> bool
    ensures { result ≡ state_fits state (eqb n 0) (ltb 0 n && decimal_fits 10 3 (pos n)) }
{
    match state {
        0 => n == 0,
        1 => (1..1_000_000_000).contains(&n),
        _ => false,
    }
}

#[tactic(auto, unfolding(rinex::specs::Fit::head_fits))]
pub fn head_fits(head: Head) -> bool
    ensures { result ≡ head_fits (head_of head) }
{
    is_file_letter(head.letter)
        && is_time(head.first)
        && head.time_system < 6
        && interval_fits(head.interval_state, head.interval)
}
