use crate::record::FirmwareRecord;
use crate::spec_id::SpecId;
use pl_base::List;

/// The bytes that a log has at most.
pub const LIMIT: usize = 4_194_304;

/// The records that a log has at most, besides its Spec ID record.
pub const RECORDS: usize = 16_384;

/// The log that the firmware keeps of what it measures.
#[derive(Debug, Drop)]
pub struct FirmwareLog {
    /// What the first record says of the log.
    pub spec: SpecId,
    /// The records after it, in the order in which they were measured.
    pub records: List<FirmwareRecord>,
}
