ghost use Rattle.std.specs.Prelude.{◌≡◌, ◌<◌, ◌≤◌, [], length, IfOk, Ok, Err};
ghost use Rattle.pl_layout.specs.Reading.{repeat_at};
ghost use Rattle.tcg_log.specs.declared.error.LogError.TheVariants.{TooMany};
ghost use Rattle.tcg_log.specs.declared.log.FirmwareLog.{FirmwareLog as TheLog};
ghost use Rattle.tcg_log.specs.Allowed.{AreSized, is_tagged, FirmwareText, IsWritable, HoldsMore};
ghost use Rattle.tcg_log.specs.Reading.{Gives, cut, fault, constant_at, head_at, algorithm_at, named_at, vendor_at, class_at, spec_at, tagged_at, digests_at, event_at, record_at, records_at, log_at};

use crate::algorithm::{has_number, size_fits, size_of_number};
use crate::error::{LogError, LogKind};
use crate::log::{FirmwareLog, RECORDS};
use crate::record::{EV_NO_ACTION, FirmwareRecord, Tagged};
use crate::spec_id::{Algorithm, SpecId};
use pl_base::List;
use pl_layout::{CutFault, digest_of, place_of, read_bytes, read_u8, read_u16_le, read_u32_le};
use std::alloc::Global;

/// What a Spec ID event begins with.
pub(crate) const SIGNATURE: &[u8] = b"Spec ID Event03\0";

/// The fault of the field that begins with these bytes, the last of all that there are.
fn fault_at(all: usize, kind: LogKind, bytes: &[u8]) -> LogError
    ensures { result ≡ fault all kind bytes.now }
{
    LogError::Malformed {
        place: place_of(all, bytes),
        kind,
    }
}

impl CutFault for LogError {
    ghost cut_at = { cut };

    fn cut(all: usize, bytes: &[u8]) -> LogError {
        fault_at(all, LogKind::Cut, bytes)
    }
}

/// Passes over what a Spec ID record has in this place.
fn after_constant<'a>(all: usize, text: &[u8], bytes: &'a [u8]) -> Result<&'a [u8], LogError>
    ensures { Gives (λ x. x.now) result (constant_at all text.now bytes.now) }
{
    let (front, rest) = read_bytes::<LogError>(all, text.len(), bytes)?;
    if front != text {
        return Err(fault_at(all, LogKind::NoSpecId, bytes));
    }
    Ok(rest)
}

#[tactic(auto, unfolding(crate::specs::Reading::head_at))]
fn head(all: usize, bytes: &[u8]) -> Result<(u32, &[u8]), LogError>
    ensures { Gives (λ x. (x.0, x.1.now)) result (head_at all bytes.now) }
{
    let rest = after_constant(all, &[0, 0, 0, 0], bytes)?;
    let rest = after_constant(all, &[3, 0, 0, 0], rest)?;
    let rest = after_constant(all, &[0; 20], rest)?;
    read_u32_le(all, rest)
}

#[tactic(auto, unfolding(crate::specs::Reading::algorithm_at))]
fn algorithm<'a>(
    all: usize,
    before: &[Algorithm],
    bytes: &'a [u8],
) -> Result<(Algorithm, &'a [u8]), LogError>
    ensures exact { Gives (λ x. (x.0, x.1.now)) result (algorithm_at all before.now bytes.now) }
    ensures sized { IfOk result (λ x. (1 ≤ x.0.size) × (x.0.size ≤ 64)) }
{
    let (number, rest) = read_u16_le::<LogError>(all, bytes)?;
    if has_number(before, number) {
        return Err(fault_at(all, LogKind::Algorithms, bytes));
    }
    let (size, after) = read_u16_le::<LogError>(all, rest)?;
    if !size_fits(number, size) {
        return Err(fault_at(all, LogKind::Algorithms, rest));
    }
    Ok((Algorithm { number, size }, after))
}

fn algorithms(
    alloc: Global,
    all: usize,
    count: u32,
    bytes: &[u8],
) -> Result<(Vec<Algorithm>, &[u8]), LogError>
    ensures exact { Gives (λ x. (x.0.items, x.1.now)) result (repeat_at (algorithm_at all) count [] bytes.now) }
    ensures sized { IfOk result (λ x. AreSized x.0.items) }
    ensures few { IfOk result (λ x. length x.0.items ≤ count) }
{
    let mut read = Vec::new(alloc);
    let mut rest = bytes;
    for _ in 0..count {
        let (next, after) = algorithm(all, &read, rest)?;
        read.push(next)?;
        rest = after;
    }
    Ok((read, rest))
}

/// The algorithms behind their number.
#[tactic(auto, unfolding(crate::specs::Reading::named_at, pl_layout::specs::Reading::counted_at))]
fn named(alloc: Global, all: usize, bytes: &[u8]) -> Result<(Vec<Algorithm>, &[u8]), LogError>
    ensures exact { Gives (λ x. (x.0.items, x.1.now)) result (named_at all bytes.now) }
    ensures sized { IfOk result (λ x. AreSized x.0.items) }
    ensures few { IfOk result (λ x. length x.0.items ≤ 16) }
{
    let (count, rest) = read_u32_le::<LogError>(all, bytes)?;
    if count < 1 || 16 < count {
        return Err(fault_at(all, LogKind::Algorithms, bytes));
    }
    algorithms(alloc, all, count, rest)
}

/// The vendor's bytes behind their number, where the stated size is that of the event.
#[tactic(auto, unfolding(crate::specs::Reading::vendor_at))]
fn vendor(
    alloc: Global,
    all: usize,
    size: u32,
    algorithms: usize,
    bytes: &[u8],
) -> Result<(Vec<u8>, &[u8]), LogError>
    requires { algorithms ≤ 16 }
    ensures { Gives (λ x. (x.0.items, x.1.now)) result (vendor_at all size algorithms bytes.now) }
{
    let (len, rest) = read_u8::<LogError>(all, bytes)?;
    let len = len as usize;
    if size as usize != 29 + 4 * algorithms + len {
        return Err(LogError::Malformed {
            place: 28,
            kind: LogKind::SpecSize,
        });
    }
    let (vendor, rest) = read_bytes::<LogError>(all, len, rest)?;
    Ok((Vec::from_slice(alloc, vendor)?, rest))
}

/// The platform's class and the versions, in a value that has nothing else yet.
#[tactic(auto, unfolding(crate::specs::Reading::class_at))]
fn class(alloc: Global, all: usize, bytes: &[u8]) -> Result<(SpecId, &[u8]), LogError>
    ensures { Gives (λ x. (x.0, x.1.now)) result (class_at all bytes.now) }
{
    let (platform, rest) = read_u32_le::<LogError>(all, bytes)?;
    let (minor, rest) = read_u8::<LogError>(all, rest)?;
    let (major, rest) = read_u8::<LogError>(all, rest)?;
    let (errata, rest) = read_u8::<LogError>(all, rest)?;
    let (uintn, rest) = read_u8::<LogError>(all, rest)?;
    let class = SpecId {
        platform,
        minor,
        major,
        errata,
        uintn,
        algorithms: List::new(alloc),
        vendor: List::new(alloc),
    };
    Ok((class, rest))
}

#[tactic(auto, unfolding(crate::specs::Reading::spec_at))]
fn spec(alloc: Global, all: usize, bytes: &[u8]) -> Result<(SpecId, &[u8]), LogError>
    ensures exact { Gives (λ x. (x.0, x.1.now)) result (spec_at all bytes.now) }
    ensures sized { IfOk result (λ x. AreSized x.0.algorithms) }
{
    let (size, rest) = head(all, bytes)?;
    let rest = after_constant(all, SIGNATURE, rest)?;
    let (mut spec, rest) = class(alloc, all, rest)?;
    let (algorithms, rest) = named(alloc, all, rest)?;
    let (vendor, rest) = vendor(alloc, all, size, algorithms.len(), rest)?;
    spec.algorithms = List::from_vec(algorithms);
    spec.vendor = List::from_vec(vendor);
    Ok((spec, rest))
}

/// Whether one of the digests is of the algorithm.
pub(crate) fn has_digest(digests: &[Tagged], algorithm: u16) -> bool
    ensures { result ≡ is_tagged digests.now algorithm }
{
    digests.iter().any(|t| t.algorithm == algorithm)
}

/// A digest of one of the algorithms, none of those before it.
#[tactic(auto, unfolding(crate::specs::Reading::tagged_at))]
fn tagged<'a>(
    all: usize,
    algorithms: &[Algorithm],
    before: &[Tagged],
    bytes: &'a [u8],
) -> Result<(Tagged, &'a [u8]), LogError>
    requires { AreSized algorithms.now }
    ensures { Gives (λ x. (x.0, x.1.now)) result (tagged_at all algorithms.now before.now bytes.now) }
{
    let (algorithm, rest) = read_u16_le::<LogError>(all, bytes)?;
    if has_digest(before, algorithm) {
        return Err(fault_at(all, LogKind::DigestAlgorithm, bytes));
    }
    let Some(size) = size_of_number(algorithms, algorithm) else {
        return Err(fault_at(all, LogKind::DigestAlgorithm, bytes));
    };
    let (digest, rest) = read_bytes::<LogError>(all, size as usize, rest)?;
    let digest = digest_of(digest);
    Ok((Tagged { algorithm, digest }, rest))
}

fn digests<'a>(
    alloc: Global,
    all: usize,
    algorithms: &[Algorithm],
    count: u32,
    bytes: &'a [u8],
) -> Result<(Vec<Tagged>, &'a [u8]), LogError>
    requires { AreSized algorithms.now }
    ensures { Gives (λ x. (x.0.items, x.1.now)) result (repeat_at (tagged_at all algorithms.now) count [] bytes.now) }
{
    let mut read = Vec::with_capacity(alloc, count as usize)?;
    let mut rest = bytes;
    for _ in 0..count {
        match tagged(all, algorithms, &read, rest) {
            Ok((next, after)) => {
                read.push(next)?;
                rest = after;
            }
            Err(error) => return Err(error),
        }
    }
    Ok((read, rest))
}

/// The digests behind their count.
#[tactic(auto, unfolding(crate::specs::Reading::digests_at, pl_layout::specs::Reading::counted_at))]
fn counted<'a>(
    alloc: Global,
    all: usize,
    algorithms: &[Algorithm],
    bytes: &'a [u8],
) -> Result<(Vec<Tagged>, &'a [u8]), LogError>
    requires { AreSized algorithms.now }
    ensures { Gives (λ x. (x.0.items, x.1.now)) result (digests_at all algorithms.now bytes.now) }
{
    let (count, rest) = read_u32_le::<LogError>(all, bytes)?;
    if count < 1 || algorithms.len() < count as usize {
        return Err(fault_at(all, LogKind::Count, bytes));
    }
    digests(alloc, all, algorithms, count, rest)
}

/// The event behind its size.
#[tactic(auto, unfolding(crate::specs::Reading::event_at))]
fn event(all: usize, bytes: &[u8]) -> Result<(&[u8], &[u8]), LogError>
    ensures { Gives (λ x. (x.0.now, x.1.now)) result (event_at all bytes.now) }
{
    let (size, rest) = read_u32_le::<LogError>(all, bytes)?;
    read_bytes(all, size as usize, rest)
}

#[tactic(auto, unfolding(crate::specs::Reading::record_at))]
fn record<'a>(
    alloc: Global,
    all: usize,
    algorithms: &[Algorithm],
    bytes: &'a [u8],
) -> Result<(FirmwareRecord, &'a [u8]), LogError>
    requires { AreSized algorithms.now }
    ensures { Gives (λ x. (x.0, x.1.now)) result (record_at all algorithms.now bytes.now) }
{
    let (pcr, rest) = read_u32_le::<LogError>(all, bytes)?;
    let (kind, rest) = read_u32_le::<LogError>(all, rest)?;
    if kind != EV_NO_ACTION && 23 < pcr {
        return Err(fault_at(all, LogKind::PcrNumber, bytes));
    }
    let (digests, rest) = counted(alloc, all, algorithms, rest)?;
    let (event, rest) = event(all, rest)?;
    let record = FirmwareRecord {
        pcr,
        kind,
        digests: List::from_vec(digests),
        event: List::from_vec(Vec::from_slice(alloc, event)?),
    };
    Ok((record, rest))
}

/// The records to the end of the bytes, of which there may be this many.
fn records(
    alloc: Global,
    all: usize,
    algorithms: &[Algorithm],
    limit: usize,
    bytes: &[u8],
) -> Result<Vec<FirmwareRecord>, LogError>
    requires { AreSized algorithms.now }
    ensures { Gives (λ x. x.items) result (records_at all algorithms.now limit [] bytes.now) }
{
    let mut read = Vec::new(alloc);
    let mut rest = bytes;
    for _ in 0..limit {
        if rest.is_empty() {
            return Ok(read);
        }
        let (next, after) = record(alloc, all, algorithms, rest)?;
        read.push(next)?;
        rest = after;
    }
    if rest.is_empty() {
        Ok(read)
    } else {
        Err(LogError::TooMany)
    }
}

#[tactic(auto, unfolding(crate::specs::Reading::log_at))]
fn log(alloc: Global, bytes: &[u8]) -> Result<FirmwareLog, LogError>
    ensures { Gives (λ x. x) result (log_at bytes.now) }
{
    let all = bytes.len();
    let (spec, rest) = spec(alloc, all, bytes)?;
    let records = records(alloc, all, spec.algorithms.as_slice(), RECORDS, rest)?;
    Ok(FirmwareLog {
        spec,
        records: List::from_vec(records),
    })
}

/// The log that the bytes spell, all of the bytes. There are at most 4,194,304 of them.
///
/// # Errors
///
/// `Malformed` names the offset at which the first field begins that ends after the bytes or has
/// no allowed value. `TooMany` where 16,384 records were read and bytes remain.
pub fn read_log(alloc: Global, bytes: &[u8]) -> Result<FirmwareLog, LogError>
    requires { length bytes.now ≤ 4194304 }
    // What is read is spelled so, and within the limits.
    ensures found { IfOk result (λ log. FirmwareText bytes.now log × IsWritable log) }
    // What is spelled so is read, unless memory runs out.
    ensures only { (log : TheLog) → FirmwareText bytes.now log → length log.records ≤ 16384 → Gives (λ x. x) result (Ok log) }
    // Too many are those that a full log goes before.
    ensures too_many { result ≡ Err TooMany → HoldsMore bytes.now }
    ensures more { HoldsMore bytes.now → Gives (λ x. x) result (Err TooMany) }
    // Which fault it is.
    ensures exact { Gives (λ x. x) result (log_at bytes.now) }
{
    log(alloc, bytes)
}
