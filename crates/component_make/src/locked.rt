use cel_record::CelRecord;
use pl_base::List;

/// What the firmware measured into some PCRs, as the records of two component files, with a place
/// between them for the separators.
#[derive(Debug, Drop)]
pub struct Locked {
    /// The records before the first separator of their PCR.
    pub early: List<CelRecord>,
    /// The records behind it.
    pub late: List<CelRecord>,
}
