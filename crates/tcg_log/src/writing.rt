ghost use Rattle.std.specs.Prelude.{◌≡◌, ◌<◌, ◌^◌, ◌++◌, length, OnOk, IfOk};
ghost use Rattle.std.specs.List.{flat_map};
ghost use Rattle.tcg_log.specs.Text.{tagged_text, digests_text, event_text, record_text, algorithm_text, algorithms_text, class_text, vendor_text, event_size, head_text, spec_text};
ghost use Rattle.tcg_log.specs.Allowed.{FirmwareText, IsWritable};

use crate::log::FirmwareLog;
use crate::reading::SIGNATURE;
use crate::record::{EV_NO_ACTION, FirmwareRecord, Tagged};
use crate::spec_id::{Algorithm, SpecId};
use pl_base::Memory;
use pl_layout::{put_u16_le, put_u32_le};
use std::alloc::Global;

fn put_tagged(out: &mut Vec<u8>, tagged: &Tagged) -> Result<(), Memory>
    ensures { OnOk result (out.new.items ≡ out.old.items ++ tagged_text tagged.now) }
{
    put_u16_le(out, tagged.algorithm)?;
    out.extend_from_slice(tagged.digest.as_slice())?;
    Ok(())
}

fn put_digests(out: &mut Vec<u8>, digests: &[Tagged]) -> Result<(), Memory>
    requires { length digests.now < 2 ^ 32 }
    ensures { OnOk result (out.new.items ≡ out.old.items ++ digests_text digests.now) }
{
    put_u32_le(out, digests.len() as u32)?;
    for tagged in digests {
        put_tagged(out, tagged)?;
    }
    Ok(())
}

fn put_event(out: &mut Vec<u8>, event: &[u8]) -> Result<(), Memory>
    requires { length event.now < 2 ^ 32 }
    ensures { OnOk result (out.new.items ≡ out.old.items ++ event_text event.now) }
{
    put_u32_le(out, event.len() as u32)?;
    out.extend_from_slice(event)?;
    Ok(())
}

fn put_record(out: &mut Vec<u8>, record: &FirmwareRecord) -> Result<(), Memory>
    requires digests { length record.now.digests < 2 ^ 32 }
    requires event { length record.now.event < 2 ^ 32 }
    ensures { OnOk result (out.new.items ≡ out.old.items ++ record_text record.now) }
{
    put_u32_le(out, record.pcr)?;
    put_u32_le(out, record.kind)?;
    put_digests(out, record.digests.as_slice())?;
    put_event(out, record.event.as_slice())?;
    Ok(())
}

fn put_algorithms(out: &mut Vec<u8>, algorithms: &[Algorithm]) -> Result<(), Memory>
    requires { length algorithms.now < 2 ^ 32 }
    ensures { OnOk result (out.new.items ≡ out.old.items ++ algorithms_text algorithms.now) }
{
    put_u32_le(out, algorithms.len() as u32)?;
    for algorithm in algorithms {
        put_u16_le(out, algorithm.number)?;
        put_u16_le(out, algorithm.size)?;
    }
    Ok(())
}

/// Writes what stands before the event's fields, with the event's size.
fn put_head(out: &mut Vec<u8>, size: u32) -> Result<(), Memory>
    ensures { OnOk result (out.new.items ≡ out.old.items ++ head_text size) }
{
    put_u32_le(out, 0)?;
    put_u32_le(out, EV_NO_ACTION)?;
    out.extend_from_slice(&[0; 20])?;
    put_u32_le(out, size)?;
    Ok(())
}

fn put_class(out: &mut Vec<u8>, spec: &SpecId) -> Result<(), Memory>
    ensures { OnOk result (out.new.items ≡ out.old.items ++ class_text spec.now) }
{
    put_u32_le(out, spec.platform)?;
    out.extend_from_slice(&[spec.minor, spec.major, spec.errata, spec.uintn])?;
    Ok(())
}

fn put_vendor(out: &mut Vec<u8>, vendor: &[u8]) -> Result<(), Memory>
    requires { length vendor.now < 256 }
    ensures { OnOk result (out.new.items ≡ out.old.items ++ vendor_text vendor.now) }
{
    out.push(vendor.len() as u8)?;
    out.extend_from_slice(vendor)?;
    Ok(())
}

fn put_spec(out: &mut Vec<u8>, spec: &SpecId) -> Result<(), Memory>
    requires algorithms { length spec.now.algorithms < 2 ^ 16 }
    requires vendor { length spec.now.vendor < 256 }
    ensures { OnOk result (out.new.items ≡ out.old.items ++ spec_text spec.now) }
{
    let algorithms = spec.algorithms.as_slice();
    let vendor = spec.vendor.as_slice();
    put_head(out, (29 + 4 * algorithms.len() + vendor.len()) as u32)?;
    out.extend_from_slice(SIGNATURE)?;
    put_class(out, spec)?;
    put_algorithms(out, algorithms)?;
    put_vendor(out, vendor)?;
    Ok(())
}

/// The one text that is read as the log.
pub fn write_log(alloc: Global, log: &FirmwareLog) -> Result<Vec<u8>, Memory>
    requires { IsWritable log.now }
    ensures { IfOk result (λ text. FirmwareText text.items log.now) }
{
    let mut out = Vec::new(alloc);
    put_spec(&mut out, &log.spec)?;
    for record in log.records.as_slice() {
        put_record(&mut out, record)?;
    }
    Ok(out)
}
