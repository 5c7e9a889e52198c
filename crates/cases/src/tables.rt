// The thirteen tables that a case lends.
use crate::kept::Prefilled;

// They take 90,000 bytes: pass them by reference.
#[derive(Drop)]
pub struct CaseTables {
    pub codes: [u32; 448],
    pub times: [u64; 8],
    pub time_states: [u8; 8],
    pub flags: [u8; 8],
    pub tallies: [u16; 8],
    pub clocks: [i64; 8],
    pub clock_states: [u8; 8],
    pub satellites: [u16; 700],
    pub numbers: [i64; 700],
    pub states: [u8; 700],
    pub losses: [u8; 700],
    pub strengths: [u8; 700],
    pub carried: [u8; 70000],
}

impl CaseTables {
    // As they are before a call.
    pub fn filled() -> CaseTables {
        CaseTables {
            codes: [u32::FILLED; 448],
            times: [u64::FILLED; 8],
            time_states: [u8::FILLED; 8],
            flags: [u8::FILLED; 8],
            tallies: [u16::FILLED; 8],
            clocks: [i64::FILLED; 8],
            clock_states: [u8::FILLED; 8],
            satellites: [u16::FILLED; 700],
            numbers: [i64::FILLED; 700],
            states: [u8::FILLED; 700],
            losses: [u8::FILLED; 700],
            strengths: [u8::FILLED; 700],
            carried: [u8::FILLED; 70000],
        }
    }
}
