//! The policy file against texts written by hand from its layout.
use hash_bank::Bank;
use policy_digest::Values;
use policy_file::{FileError, FileKind, Policy, read_policy, write_policy};
use std::alloc::Global;
use std::test::Fail;

/// What stands before the first row: the magic, the index 0x01800100, a policy of 32 bytes 0x11, the pin's
/// object 0x81000000, one table, of SHA-256, with one row.
const HEAD: [u8; 52] = [
    0x50, 0x4c, 0x50, 0x4f, 0x4c, 0x00, 0x00, 0x01, 0x01, 0x80, 0x01, 0x00, 0x11, 0x11, 0x11, 0x11,
    0x11, 0x11, 0x11, 0x11, 0x11, 0x11, 0x11, 0x11, 0x11, 0x11, 0x11, 0x11, 0x11, 0x11, 0x11, 0x11,
    0x11, 0x11, 0x11, 0x11, 0x11, 0x11, 0x11, 0x11, 0x11, 0x11, 0x11, 0x11, 0x81, 0x00, 0x00, 0x00,
    0x01, 0x00, 0x0b, 0x01,
];

/// The head with this version, a row without its values, and the values, of which each has 32 equal bytes.
fn text(alloc: Global, version: u8, row: &[u8], values: &[u8]) -> Result<Vec<u8>, Fail> {
    let mut head = HEAD;
    head[7] = version;
    let mut bytes = Vec::from_slice(alloc, &head)?;
    bytes.extend_from_slice(row)?;
    for value in values {
        bytes.extend_from_slice(&[*value; 32])?;
    }
    Ok(bytes)
}

/// Whether the values are these, each of 32 equal bytes.
fn has_values(values: &Values, bytes: &[u8]) -> bool {
    let values = values.as_slice();
    values.len() == bytes.len()
        && values
            .iter()
            .zip(bytes)
            .all(|(value, byte)| value.as_slice() == [*byte; 32].as_slice())
}

/// Whether the policy has the head's fields, and one row of these PCRs whose first list has these values.
fn has_row(policy: &Policy, pcrs: u32, bytes: &[u8]) -> bool {
    let [table] = policy.tables.as_slice() else {
        return false;
    };
    let [row] = table.rows.as_slice() else {
        return false;
    };
    let [values, ..] = row.choices.as_slice() else {
        return false;
    };
    policy.handle == 0x0180_0100
        && policy.index_policy.as_slice() == [0x11; 32].as_slice()
        && policy.pin_object == 0x8100_0000
        && table.bank == Bank::Sha256
        && row.pcrs == pcrs
        && has_values(values, bytes)
}

/// Whether the text is read so, and written as it was read.
fn is_read(alloc: Global, text: &[u8], pcrs: u32, bytes: &[u8]) -> Result<bool, Fail> {
    match read_policy(alloc, text) {
        Ok(policy) => Ok(
            has_row(&policy, pcrs, bytes) && write_policy(alloc, &policy)?.as_slice() == text,
        ),
        Err(_) => Ok(false),
    }
}

#[test]
fn policies_are_read_and_written(rt: HostRuntime) -> Result<(), Fail> {
    let alloc = rt.alloc();
    let single = text(alloc, 1, &[11, 0, 1], &[0xa5])?;
    assert_eq!(rt; single.len(), 87);
    assert!(rt; is_read(alloc, &single, 1 << 11, &[0xa5])?);
    let pair = text(alloc, 2, &[0, 0, 0x08, 0x10, 0, 2], &[1, 2, 1, 3])?;
    assert_eq!(rt; pair.len(), 186);
    assert!(rt; is_read(alloc, &pair, 0x810, &[1, 2])?);
    Ok(())
}

/// Whether the text is refused for this fault.
fn is_refused(alloc: Global, text: &[u8], place: u32, kind: FileKind) -> bool {
    match read_policy(alloc, text) {
        Ok(_) => false,
        Err(error) => error == FileError::Malformed { place, kind },
    }
}

#[test]
fn a_policy_is_refused_for_its_first_fault(rt: HostRuntime) -> Result<(), Fail> {
    let alloc = rt.alloc();
    assert!(rt; is_refused(alloc, &HEAD[..51], 51, FileKind::Cut));
    // a PCR that is none
    let bytes = text(alloc, 1, &[24, 0, 1], &[1])?;
    assert!(rt; is_refused(alloc, &bytes, 52, FileKind::Value));
    // a value twice
    let bytes = text(alloc, 1, &[11, 0, 3], &[1, 2, 1])?;
    assert!(rt; is_refused(alloc, &bytes, 119, FileKind::Value));
    // version 2 without need, told before the bytes that are left over
    let bytes = text(alloc, 2, &[0, 0, 0, 0x10, 0, 1], &[1, 2])?;
    assert!(rt; is_refused(alloc, &bytes, 7, FileKind::Value));
    Ok(())
}

#[test]
fn bytes_behind_the_last_field_are_refused(rt: HostRuntime) -> Result<(), Fail> {
    let alloc = rt.alloc();
    let bytes = text(alloc, 1, &[11, 0, 1], &[1, 2])?;
    assert!(rt; is_refused(alloc, &bytes, 87, FileKind::Trailing));
    let bytes = text(alloc, 3, &[11, 0, 1], &[1])?;
    assert!(rt; is_refused(alloc, &bytes, 0, FileKind::Magic));
    Ok(())
}
