//! What `make-policy` is asked for.
use hash_bank::Bank;
use pl_base::Name;
use predictor::Window;

/// The PCRs that a policy is to protect, and what they are foreseen from.
#[derive(Drop)]
pub struct Asked<'a> {
    /// The path of the firmware's log, if it isn't the usual one.
    pub firmware: Option<&'a Name>,
    /// The path of the log of userspace, if it isn't the usual one.
    pub user: Option<&'a Name>,
    /// The folders of components, the first on top.
    pub folders: &'a [Name],
    /// The window in which the boot stands.
    pub location: &'a Window,
    /// The mask of the PCRs, whose bit i stands for PCR i.
    pub pcrs: u32,
    /// The bank of all values.
    pub bank: Bank,
    /// Whether one row of the table tells the values of all PCRs at once.
    pub joint: bool,
}

/// Where a policy is put in force, and how.
#[derive(Drop)]
pub struct Target<'a> {
    /// The path of the policy file.
    pub path: &'a Name,
    /// The handle of the NV index where no policy file names one, 0x01000000 to 0x01ffffff.
    pub index: u32,
    /// The pin with which the index is written, if it was given.
    pub pin: Option<&'a [u8; 32]>,
    /// Whether an unchanged table is written too.
    pub force: bool,
}
