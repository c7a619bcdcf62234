ghost use Rattle.std.specs.Prelude.{◌≡◌, ◌≤◌, ◌<◌, ◌^◌, ◌+◌, ◌-◌, ◌*◌, ◌↔◌, ◌&&◌, nat_le, length, true, IsTrue, [], take};
ghost use Rattle.std.specs.List.{AllByRecursion, list_all, flat_map};
ghost use Rattle.tcg_log.specs.Text.{tagged_text, record_text, spec_text};
ghost use Rattle.tcg_log.specs.Allowed.{are_algorithms, is_spec as is_spec_id, is_tagged, size_named, tagged_fits, are_digests, is_record as is_record_of, AlgorithmFits, SpecFits, TaggedFits, RecordFits, IsWritable};

use crate::algorithm::{has_number, size_fits, size_of_number};
use crate::log::{FirmwareLog, LIMIT, RECORDS};
use crate::reading::has_digest;
use crate::record::{EV_NO_ACTION, FirmwareRecord, Tagged};
use crate::spec_id::{Algorithm, SpecId};

/// Whether each algorithm is none of those before it, and has a size that fits.
fn algorithms_fit(algorithms: &[Algorithm]) -> bool
    ensures value { result ≡ are_algorithms [] algorithms.now }
    ensures fits { IsTrue result → AllByRecursion AlgorithmFits algorithms.now }
{
    for i in 0..algorithms.len() {
        let Algorithm { number, size } = algorithms[i];
        if has_number(&algorithms[..i], number) || !size_fits(number, size) {
            return false;
        }
    }
    true
}

/// Whether a Spec ID record's fields are allowed.
fn is_spec(spec: &SpecId) -> bool
    ensures value { result ≡ is_spec_id spec.now }
    ensures fits { IsTrue result → SpecFits spec.now }
{
    let algorithms = spec.algorithms.as_slice();
    let vendor = spec.vendor.as_slice();
    let _platform = spec.platform;
    let _minor = spec.minor;
    let _major = spec.major;
    let _errata = spec.errata;
    let _uintn = spec.uintn;
    if algorithms.is_empty() || 16 < algorithms.len() || 255 < vendor.len() {
        return false;
    }
    algorithms_fit(algorithms)
}

/// Whether a digest is of one of the algorithms, with its size, and of none of those before it.
fn digest_fits(algorithms: &[Algorithm], before: &[Tagged], tagged: &Tagged) -> bool
    ensures value { result ≡ tagged_fits algorithms.now before.now tagged.now }
    ensures fits { TaggedFits tagged.now }
{
    let digest = tagged.digest.as_slice();
    let algorithm = tagged.algorithm;
    if has_digest(before, algorithm) {
        return false;
    }
    match size_of_number(algorithms, algorithm) {
        Some(size) => digest.len() == size as usize,
        None => false,
    }
}

/// Whether each digest is of an algorithm of its own, one of the given, and has its size.
fn digests_fit(algorithms: &[Algorithm], digests: &[Tagged]) -> bool
    ensures value { result ≡ are_digests algorithms.now [] digests.now }
    ensures fits { IsTrue result → AllByRecursion TaggedFits digests.now }
{
    for i in 0..digests.len() {
        if !digest_fits(algorithms, &digests[..i], &digests[i]) {
            return false;
        }
    }
    true
}

/// Whether a record's fields are allowed.
fn is_record(algorithms: &[Algorithm], record: &FirmwareRecord) -> bool
    ensures value { result ≡ is_record_of algorithms.now record.now }
    ensures fits { IsTrue result → RecordFits record.now }
{
    let digests = record.digests.as_slice();
    let event = record.event.as_slice();
    let pcr = record.pcr;
    (record.kind == EV_NO_ACTION || pcr <= 23)
        && 1 <= digests.len()
        && digests.len() <= algorithms.len()
        && digests_fit(algorithms, digests)
        && event.len() < 1 << 32
}

/// How many bytes the digests have.
fn digests_size(digests: &[Tagged]) -> usize
    requires { length digests.now ≤ 16 }
    ensures value { result ≡ length (flat_map tagged_text digests.now) }
    ensures bound { result ≤ 1056 }
{
    let mut size = 0;
    for tagged in digests {
        size += 2 + tagged.digest.as_slice().len();
    }
    size
}

/// How many bytes the record has.
fn record_size(record: &FirmwareRecord) -> usize
    requires few { length record.now.digests ≤ 16 }
    requires short { length record.now.event < 2 ^ 32 }
    ensures { result ≡ length (record_text record.now) }
{
    16 + digests_size(record.digests.as_slice()) + record.event.len()
}

/// How many bytes the Spec ID record has.
fn spec_size(spec: &SpecId) -> usize
    requires algorithms { length spec.now.algorithms ≤ 16 }
    requires vendor { length spec.now.vendor < 256 }
    ensures value { result ≡ length (spec_text spec.now) }
    ensures bound { result ≤ 400 }
{
    61 + 4 * spec.algorithms.len() + spec.vendor.len()
}

/// Whether the records' fields are allowed, and their texts have no more bytes than there is room.
fn records_fit(algorithms: &[Algorithm], room: usize, records: &[FirmwareRecord]) -> bool
    requires { length algorithms.now ≤ 16 }
    ensures value { result ≡ (list_all (is_record_of algorithms.now) records.now && nat_le (length (flat_map record_text records.now)) room) }
    ensures fits { IsTrue result → AllByRecursion RecordFits records.now }
{
    let mut left = room;
    for record in records {
        if !is_record(algorithms, record) {
            return false;
        }
        let size = record_size(record);
        if left < size {
            return false;
        }
        left -= size;
    }
    true
}

/// Whether the log's fields have allowed values, it has at most 16,384 records and its text at most
/// 4,194,304 bytes. Each log that was read is writable.
pub fn is_writable(log: &FirmwareLog) -> bool
    ensures { IsTrue result ↔ IsWritable log.now }
{
    let records = log.records.as_slice();
    if RECORDS < records.len() || !is_spec(&log.spec) {
        return false;
    }
    let room = LIMIT - spec_size(&log.spec);
    records_fit(log.spec.algorithms.as_slice(), room, records)
}
