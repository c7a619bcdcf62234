//! What is to be proved.
use hash_bank::Bank;

/// Of which PCRs the states are to be proved, how, and from which restart on.
#[derive(Clone, Copy, Debug)]
pub struct Asked {
    /// The mask of the PCRs, whose bit i stands for PCR i.
    pub pcrs: u32,
    /// The bank of all values.
    pub bank: Bank,
    /// The locality that the platform starts at: 0, 3 or 4.
    pub locality: u8,
    /// Whether one proof tells the values of all PCRs at once, and not each of one PCR.
    pub joint: bool,
}
