// The lent tables, as they are handed on together: those of the epochs, those of the rows and their slots, and all thirteen.
#![tactic(auto)]

ghost use Rattle.std.specs.Prelude.{◌≡◌, ◌+◌, min, length};
ghost use Rattle.rinex.specs.Fit.{entry_at};
ghost use Rattle.rinex.specs.Lent.{entry_of};
ghost use Rattle.lent.specs.Parts.{epochs_in, EpochsHold};

use rinex::EpochEntry;

// The tables of the epochs: an entry of each is one epoch.
#[derive(Clone, Copy)]
pub struct Epochs<'a> {
    pub times: &'a [u64],
    pub time_states: &'a [u8],
    pub flags: &'a [u8],
    pub tallies: &'a [u16],
    pub clocks: &'a [i64],
    pub clock_states: &'a [u8],
}

// The tables of the slots: an entry of each is one slot.
#[derive(Clone, Copy)]
pub struct SlotTables<'a> {
    pub numbers: &'a [i64],
    pub states: &'a [u8],
    pub losses: &'a [u8],
    pub strengths: &'a [u8],
}

// The satellites of the rows, and the slots that the rows take one after the other.
#[derive(Clone, Copy)]
pub struct Rows<'a> {
    pub satellites: &'a [u16],
    pub slots: SlotTables<'a>,
}

// All thirteen.
#[derive(Clone, Copy)]
pub struct Tables<'a> {
    pub codes: &'a [u32],
    pub epochs: Epochs<'a>,
    pub rows: Rows<'a>,
    pub carried: &'a [u8],
}

impl Epochs<'_> {
    // How many epochs there is room for: the shortest table's length.
    pub fn room(&self) -> usize
        ensures { result ≡ min (length self.now.times.now) (min (length self.now.time_states.now) (min (length self.now.flags.now) (min (length self.now.tallies.now) (min (length self.now.clocks.now) (length self.now.clock_states.now))))) }
    {
        self.times
            .len()
            .min(self.time_states.len())
            .min(self.flags.len())
            .min(self.tallies.len())
            .min(self.clocks.len())
            .min(self.clock_states.len())
    }

    // Entry `i`.
    pub fn entry(&self, i: usize) -> EpochEntry
        requires { EpochsHold (i + 1) self.now }
        ensures { entry_of result ≡ entry_at (epochs_in self.now) i }
    {
        EpochEntry {
            time_state: self.time_states[i],
            time: self.times[i],
            flag: self.flags[i],
            count: self.tallies[i],
            clock_state: self.clock_states[i],
            clock: self.clocks[i],
        }
    }
}

impl SlotTables<'_> {
    // How many slots there is room for.
    pub fn room(&self) -> usize
        ensures { result ≡ min (length self.now.numbers.now) (min (length self.now.states.now) (min (length self.now.losses.now) (length self.now.strengths.now))) }
    {
        self.numbers
            .len()
            .min(self.states.len())
            .min(self.losses.len())
            .min(self.strengths.len())
    }
}
