use cel_record::CelRecord;
use pl_base::List;

/// What a userspace log holds.
#[derive(Debug, Drop)]
pub struct UserLog {
    /// The records, in order.
    pub records: List<CelRecord>,
    /// How many texts were objects without the member `pcr`.
    pub skipped: u32,
}
