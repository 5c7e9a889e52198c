// Why a line of a text is refused.
ghost use Rattle.std.specs.Prelude.{◌≡◌};
ghost use Rattle.state.specs.Faults;

// In the order of the numbers that are told. Where a line has several, the lowest number is told.
#[derive(Clone, Copy, Debug, PartialEq, Eq)]
pub enum LineFault {
    OtherByte,
    TooWide,
    NoVersion,
    NoLabel,
    OutOfPlace,
    UnfitHeader,
    NoEpoch,
    OtherFlag,
    NotLater,
    NoSatellite,
    NoList,
    SatelliteAgain,
    UnfitSlot,
    CutOff,
    NoMarkerName,
    NoRoom,
}

impl LineFault {
    // The number that is told.
    pub fn number(self) -> usize
        ensures { result ≡ Faults.refusal_number self }
    {
        match self {
            LineFault::OtherByte => 1,
            LineFault::TooWide => 2,
            LineFault::NoVersion => 3,
            LineFault::NoLabel => 4,
            LineFault::OutOfPlace => 5,
            LineFault::UnfitHeader => 6,
            LineFault::NoEpoch => 7,
            LineFault::OtherFlag => 8,
            LineFault::NotLater => 9,
            LineFault::NoSatellite => 10,
            LineFault::NoList => 11,
            LineFault::SatelliteAgain => 12,
            LineFault::UnfitSlot => 13,
            LineFault::CutOff => 14,
            LineFault::NoMarkerName => 15,
            LineFault::NoRoom => 16,
        }
    }
}
