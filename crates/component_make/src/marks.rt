//! What is noted of each PCR while a log is read.
ghost use Rattle.std.specs.Prelude.{◌≡◌, ◌≤◌, true, if◌then◌else◌, slice_set};

use policy_digest::is_in_mask;

/// The number of PCRs of a TPM (TCG PC Client Platform TPM Profile).
const PCR_COUNT: u8 = 24;

/// Into which PCRs something was extended, and into which a separator.
#[derive(Drop)]
pub(crate) struct Marks {
    pub(crate) extended: [bool; 24],
    pub(crate) separated: [bool; 24],
}

/// Sets the PCR's flag where it is to be set.
fn set_flag(flags: &mut [bool; 24], pcr: u8, set: bool)
    requires { pcr ≤ 23 }
    ensures { flags.new ≡ (if set then slice_set flags.old pcr true else flags.old) }
{
    if set {
        flags[pcr as usize] = true;
    }
}

impl Marks {
    ghost use Rattle.std.specs.Prelude.{◌≡◌, ◌≤◌, ◌<◌, ◌^◌, List, [], ◌∷◌, ◌++◌, MatchOption};
    ghost use Rattle.pcr_replay.specs.Row.{Row};
    ghost use Rattle.component_make.specs.EarlyLate.{is_separated as has_separator, is_separating};
    ghost use Rattle.component_make.specs.Lock.{lacks_separator, IsFirstLacking, AreSeparated};
    ghost use Rattle.component_make.specs.Parting.{IsMarked};

    /// Where nothing was extended yet.
    pub(crate) fn new() -> Marks
        ensures { IsMarked [] result }
    {
        Marks {
            extended: [false; 24],
            separated: [false; 24],
        }
    }

    /// Whether a separator was extended into the PCR.
    pub(crate) fn is_separated(&self, pcr: u8) -> bool
        requires { pcr ≤ 23 }
        ensures { (rows : List Row) → IsMarked rows self.now → result ≡ has_separator pcr rows }
    {
        self.separated[pcr as usize]
    }

    /// Notes that something was extended into the PCR, and whether it was a separator.
    pub(crate) fn mark(&mut self, pcr: u8, separates: bool)
        requires { pcr ≤ 23 }
        ensures { (rows : List Row) (r : Row) → r.pcr ≡ pcr → is_separating r.origin ≡ separates
            → IsMarked rows self.old → IsMarked (rows ++ r ∷ []) self.new }
    {
        set_flag(&mut self.extended, pcr, true);
        set_flag(&mut self.separated, pcr, separates);
    }

    /// Whether something but no separator was extended into the PCR, one of the mask.
    fn lacks(&self, pcrs: u32, pcr: u8) -> bool
        requires { pcr ≤ 23 }
        ensures { (rows : List Row) → IsMarked rows self.now → result ≡ lacks_separator pcrs rows pcr }
    {
        is_in_mask(pcrs, pcr) && self.extended[pcr as usize] && !self.separated[pcr as usize]
    }

    /// The least PCR of the mask into which something but no separator was extended.
    pub(crate) fn first_lacking(&self, pcrs: u32) -> Option<u8>
        requires { pcrs < 2 ^ 24 }
        ensures { (rows : List Row) → IsMarked rows self.now
            → MatchOption result (AreSeparated pcrs rows) (λ pcr. IsFirstLacking pcrs rows pcr) }
    {
        for pcr in 0..PCR_COUNT {
            if self.lacks(pcrs, pcr) {
                return Some(pcr);
            }
        }
        None
    }
}
