use hash_bank::{Bank, Digest};
use pl_base::List;
use std::alloc::{AllocError, Global};
use std::test::*;
use tcg_log::{
    FirmwareRecord, LIMIT, LogError, LogKind, Tagged, is_writable, locality, read_log, write_log,
};

// A log of one algorithm, SHA-256, and one record: a separator in PCR 0 with the hash of its event.
const EXAMPLE: [u8; 119] = [
    0x00, 0x00, 0x00, 0x00, 0x03, 0x00, 0x00, 0x00, 0x00, 0x00, 0x00, 0x00, 0x00, 0x00, 0x00, 0x00,
    0x00, 0x00, 0x00, 0x00, 0x00, 0x00, 0x00, 0x00, 0x00, 0x00, 0x00, 0x00, 0x21, 0x00, 0x00, 0x00,
    0x53, 0x70, 0x65, 0x63, 0x20, 0x49, 0x44, 0x20, 0x45, 0x76, 0x65, 0x6e, 0x74, 0x30, 0x33, 0x00,
    0x00, 0x00, 0x00, 0x00, 0x00, 0x02, 0x00, 0x02, 0x01, 0x00, 0x00, 0x00, 0x0b, 0x00, 0x20, 0x00,
    0x00, 0x00, 0x00, 0x00, 0x00, 0x04, 0x00, 0x00, 0x00, 0x01, 0x00, 0x00, 0x00, 0x0b, 0x00, 0xdf,
    0x3f, 0x61, 0x98, 0x04, 0xa9, 0x2f, 0xdb, 0x40, 0x57, 0x19, 0x2d, 0xc4, 0x3d, 0xd7, 0x48, 0xea,
    0x77, 0x8a, 0xdc, 0x52, 0xbc, 0x49, 0x8c, 0xe8, 0x05, 0x24, 0xc0, 0x14, 0xb8, 0x11, 0x19, 0x04,
    0x00, 0x00, 0x00, 0x00, 0x00, 0x00, 0x00,
];

// Where the example's fields begin.
const FIELDS: [u32; 21] = [
    0, 4, 8, 28, 32, 48, 52, 53, 54, 55, 56, 60, 62, 64, 65, 69, 73, 77, 79, 111, 115,
];

const SIXTEEN: [(u8, u8); 16] = [
    (0x20, 1),
    (0x21, 1),
    (0x22, 1),
    (0x23, 1),
    (0x24, 1),
    (0x25, 1),
    (0x26, 1),
    (0x27, 1),
    (0x28, 1),
    (0x29, 1),
    (0x2A, 1),
    (0x2B, 1),
    (0x2C, 1),
    (0x2D, 1),
    (0x2E, 1),
    (0x2F, 64),
];

const SEVENTEEN: [(u8, u8); 17] = [
    (0x20, 1),
    (0x21, 1),
    (0x22, 1),
    (0x23, 1),
    (0x24, 1),
    (0x25, 1),
    (0x26, 1),
    (0x27, 1),
    (0x28, 1),
    (0x29, 1),
    (0x2A, 1),
    (0x2B, 1),
    (0x2C, 1),
    (0x2D, 1),
    (0x2E, 1),
    (0x2F, 1),
    (0x30, 1),
];

const BANKS: [(u8, u8); 4] = [(0x04, 20), (0x0B, 32), (0x0C, 48), (0x0D, 64)];

const THREE: &[u8] = b"StartupLocality\0\x03";

const FOUR: &[u8] = b"StartupLocality\0\x04";

const ONE: &[u8] = b"StartupLocality\0\x01";

const LONG: &[u8] = b"StartupLocality\0\x03\x03";

const OTHER: &[u8] = b"StartupLocalitx\0\x03";

const CHANGES: [(&[(usize, u8)], Option<LogError>); 27] = [
    (&[], None),
    (
        &[(0, 1)],
        Some(LogError::Malformed {
            place: 0,
            kind: LogKind::NoSpecId,
        }),
    ),
    (
        &[(4, 4)],
        Some(LogError::Malformed {
            place: 4,
            kind: LogKind::NoSpecId,
        }),
    ),
    (
        &[(27, 1)],
        Some(LogError::Malformed {
            place: 8,
            kind: LogKind::NoSpecId,
        }),
    ),
    (
        &[(28, 0x20)],
        Some(LogError::Malformed {
            place: 28,
            kind: LogKind::SpecSize,
        }),
    ),
    (
        &[(28, 0x22)],
        Some(LogError::Malformed {
            place: 28,
            kind: LogKind::SpecSize,
        }),
    ),
    (
        &[(31, 1)],
        Some(LogError::Malformed {
            place: 28,
            kind: LogKind::SpecSize,
        }),
    ),
    // With a byte of the vendor's the record begins a byte later.
    (
        &[(28, 0x22), (64, 1)],
        Some(LogError::Malformed {
            place: 66,
            kind: LogKind::PcrNumber,
        }),
    ),
    (
        &[(28, 0x22), (60, 4)],
        Some(LogError::Malformed {
            place: 62,
            kind: LogKind::Algorithms,
        }),
    ),
    (
        &[(46, 0x34)],
        Some(LogError::Malformed {
            place: 32,
            kind: LogKind::NoSpecId,
        }),
    ),
    (
        &[(47, 1)],
        Some(LogError::Malformed {
            place: 32,
            kind: LogKind::NoSpecId,
        }),
    ),
    (&[(48, 1), (52, 9), (53, 9), (54, 9), (55, 9)], None),
    (
        &[(56, 0)],
        Some(LogError::Malformed {
            place: 56,
            kind: LogKind::Algorithms,
        }),
    ),
    (
        &[(56, 17)],
        Some(LogError::Malformed {
            place: 56,
            kind: LogKind::Algorithms,
        }),
    ),
    (&[(60, 0x12), (77, 0x12)], None),
    (
        &[(60, 0x12)],
        Some(LogError::Malformed {
            place: 77,
            kind: LogKind::DigestAlgorithm,
        }),
    ),
    (
        &[(62, 0x14)],
        Some(LogError::Malformed {
            place: 62,
            kind: LogKind::Algorithms,
        }),
    ),
    (
        &[(60, 0x12), (62, 0)],
        Some(LogError::Malformed {
            place: 62,
            kind: LogKind::Algorithms,
        }),
    ),
    (
        &[(60, 0x12), (62, 65)],
        Some(LogError::Malformed {
            place: 62,
            kind: LogKind::Algorithms,
        }),
    ),
    (&[(65, 23)], None),
    (
        &[(65, 24)],
        Some(LogError::Malformed {
            place: 65,
            kind: LogKind::PcrNumber,
        }),
    ),
    (&[(65, 24), (69, 3)], None),
    (
        &[(65, 24), (72, 0x80)],
        Some(LogError::Malformed {
            place: 65,
            kind: LogKind::PcrNumber,
        }),
    ),
    (
        &[(73, 0)],
        Some(LogError::Malformed {
            place: 73,
            kind: LogKind::Count,
        }),
    ),
    (
        &[(73, 2)],
        Some(LogError::Malformed {
            place: 73,
            kind: LogKind::Count,
        }),
    ),
    (
        &[(111, 5)],
        Some(LogError::Malformed {
            place: 115,
            kind: LogKind::Cut,
        }),
    ),
    (
        &[(114, 0xFF)],
        Some(LogError::Malformed {
            place: 115,
            kind: LogKind::Cut,
        }),
    ),
];

const HEADS: [(&[(u8, u8)], &[u8], Option<LogError>); 11] = [
    (&[(0x04, 20)], &[], None),
    (&[(0x0B, 32), (0x04, 20)], &[], None),
    (&[(0x04, 20), (0x0B, 32), (0x0C, 48)], &[1, 2, 3], None),
    (&[(0x04, 20), (0x0B, 32), (0x0C, 48), (0x0D, 64)], &[], None),
    (&[(0x12, 1)], &[], None),
    (&[(0x12, 64), (0x0B, 32)], &[0], None),
    (&SIXTEEN, &[9], None),
    (
        &SEVENTEEN,
        &[],
        Some(LogError::Malformed {
            place: 56,
            kind: LogKind::Algorithms,
        }),
    ),
    (
        &[(0x0B, 32), (0x0B, 32)],
        &[],
        Some(LogError::Malformed {
            place: 64,
            kind: LogKind::Algorithms,
        }),
    ),
    (
        &[(0x0B, 32), (0x04, 32)],
        &[],
        Some(LogError::Malformed {
            place: 66,
            kind: LogKind::Algorithms,
        }),
    ),
    (
        &[(0x0B, 32), (0x0D, 63)],
        &[],
        Some(LogError::Malformed {
            place: 66,
            kind: LogKind::Algorithms,
        }),
    ),
];

const RECORD_DIGESTS: [(&[(u8, u8)], Option<LogError>); 8] = [
    (&BANKS, None),
    (&[(0x0B, 32)], None),
    (&[(0x0D, 64), (0x04, 20), (0x0B, 32)], None),
    (
        &[],
        Some(LogError::Malformed {
            place: 85,
            kind: LogKind::Count,
        }),
    ),
    (
        &[(0x04, 1), (0x0B, 32), (0x0C, 48), (0x0D, 64), (0x12, 1)],
        Some(LogError::Malformed {
            place: 85,
            kind: LogKind::Count,
        }),
    ),
    (
        &[(0x12, 32)],
        Some(LogError::Malformed {
            place: 89,
            kind: LogKind::DigestAlgorithm,
        }),
    ),
    (
        &[(0x0B, 32), (0x0B, 32)],
        Some(LogError::Malformed {
            place: 123,
            kind: LogKind::DigestAlgorithm,
        }),
    ),
    (
        &[(0x0B, 32), (0x0C, 47)],
        Some(LogError::Malformed {
            place: 173,
            kind: LogKind::Cut,
        }),
    ),
];

const ANNOUNCEMENTS: [(u8, u8, &[u8], u8); 8] = [
    (0, 3, THREE, 3),
    (0, 3, FOUR, 4),
    (0, 3, ONE, 0),
    (0, 3, LONG, 0),
    (0, 3, OTHER, 0),
    (0, 3, b"", 0),
    (1, 3, THREE, 0),
    (0, 4, THREE, 0),
];

// Why bytes are no log, or none where they are one.
fn refusal(alloc: Global, bytes: &[u8]) -> Option<LogError> {
    if bytes.len() > LIMIT {
        return None;
    }
    match read_log(alloc, bytes) {
        Ok(_) => None,
        Err(error) => Some(error),
    }
}

fn malformed(place: u32, kind: LogKind) -> Option<LogError> {
    Some(LogError::Malformed { place, kind })
}

// The example with some bytes changed.
fn changed(alloc: Global, edits: &[(usize, u8)]) -> Result<Vec<u8>, AllocError> {
    let mut bytes = Vec::from_slice(alloc, &EXAMPLE)?;
    for (place, byte) in edits {
        if *place < bytes.len() {
            bytes[*place] = *byte;
        }
    }
    Ok(bytes)
}

// The bytes of a Spec ID record with these algorithms and this vendor's bytes, of few bytes each.
fn spec_bytes(
    alloc: Global,
    algorithms: &[(u8, u8)],
    vendor: &[u8],
) -> Result<Vec<u8>, AllocError> {
    let mut bytes = Vec::from_slice(alloc, &EXAMPLE[..28])?;
    let size = (29 + 4 * (algorithms.len() % 32) + vendor.len() % 32) as u8;
    bytes.extend_from_slice(&[size, 0, 0, 0])?;
    bytes.extend_from_slice(&EXAMPLE[32..56])?;
    bytes.extend_from_slice(&[(algorithms.len() % 32) as u8, 0, 0, 0])?;
    for (number, size) in algorithms {
        bytes.extend_from_slice(&[*number, 0, *size, 0])?;
    }
    bytes.extend_from_slice(&[(vendor.len() % 32) as u8])?;
    bytes.extend_from_slice(vendor)?;
    Ok(bytes)
}

// Puts a record at the end, whose digests are of bytes 7.
fn put_record(
    bytes: &mut Vec<u8>,
    pcr: u8,
    kind: u8,
    digests: &[(u8, u8)],
    event: &[u8],
) -> Result<(), AllocError> {
    bytes.extend_from_slice(&[
        pcr,
        0,
        0,
        0,
        kind,
        0,
        0,
        0,
        (digests.len() % 32) as u8,
        0,
        0,
        0,
    ])?;
    for (number, size) in digests {
        bytes.extend_from_slice(&[*number, 0])?;
        for _ in 0..*size {
            bytes.extend_from_slice(&[7])?;
        }
    }
    bytes.extend_from_slice(&[(event.len() % 256) as u8, 0, 0, 0])?;
    bytes.extend_from_slice(event)
}

#[test]
fn cuts_of_the_example(rt: HostRuntime) {
    for end in 0..119usize {
        let mut place = 0;
        for field in FIELDS {
            if field as usize <= end {
                place = field;
            }
        }
        let expected = if end == 65 {
            None
        } else {
            malformed(place, LogKind::Cut)
        };
        assert_eq!(rt; refusal(rt.alloc(), &EXAMPLE[..end]), expected);
    }
}

#[test]
fn changes_of_the_example(rt: HostRuntime) -> Result<(), Fail> {
    for (edits, expected) in &CHANGES {
        let bytes = changed(rt.alloc(), edits)?;
        assert_eq!(rt; refusal(rt.alloc(), &bytes), *expected);
    }
    Ok(())
}

// The text of the log that the bytes spell.
fn rewritten(alloc: Global, bytes: &[u8]) -> Result<Vec<u8>, Fail> {
    if bytes.len() > LIMIT {
        return Err("too long".into());
    }
    let log = read_log(alloc, bytes)?;
    Ok(write_log(alloc, &log)?)
}

#[test]
fn heads(rt: HostRuntime) -> Result<(), Fail> {
    for (algorithms, vendor, expected) in &HEADS {
        let bytes = spec_bytes(rt.alloc(), algorithms, vendor)?;
        assert_eq!(rt; refusal(rt.alloc(), &bytes), *expected);
        if expected.is_none() {
            let again = rewritten(rt.alloc(), &bytes)?;
            assert_eq!(rt; again.as_slice(), bytes.as_slice());
        }
    }
    Ok(())
}

#[test]
fn records(rt: HostRuntime) -> Result<(), Fail> {
    for (digests, expected) in &RECORD_DIGESTS {
        let mut bytes = spec_bytes(rt.alloc(), &BANKS, &[])?;
        put_record(&mut bytes, 7, 4, digests, &[])?;
        assert_eq!(rt; refusal(rt.alloc(), &bytes), *expected);
        if expected.is_none() {
            put_record(&mut bytes, 200, 3, &BANKS, b"an event")?;
            let again = rewritten(rt.alloc(), &bytes)?;
            assert_eq!(rt; again.as_slice(), bytes.as_slice());
        }
    }
    Ok(())
}

#[test]
fn localities(rt: HostRuntime) -> Result<(), Fail> {
    for (pcr, kind, event, expected) in &ANNOUNCEMENTS {
        let mut bytes = spec_bytes(rt.alloc(), &[(0x04, 20)], &[])?;
        put_record(&mut bytes, *pcr, *kind, &[(0x04, 20)], event)?;
        if bytes.len() <= LIMIT {
            let log = read_log(rt.alloc(), &bytes)?;
            assert_eq!(rt; locality(&log), *expected);
        }
        // What has no effect doesn't hide a later one, and the first that has one counts.
        put_record(&mut bytes, 0, 3, &[(0x04, 20)], FOUR)?;
        put_record(&mut bytes, 0, 3, &[(0x04, 20)], THREE)?;
        if bytes.len() <= LIMIT {
            let log = read_log(rt.alloc(), &bytes)?;
            assert_eq!(rt; locality(&log), if *expected == 0 { 4 } else { *expected });
        }
    }
    Ok(())
}

#[test]
fn as_many_as_there_may_be(rt: HostRuntime) -> Result<(), Fail> {
    let mut bytes = spec_bytes(rt.alloc(), &[(0x12, 1)], &[])?;
    for _ in 0..16_384 {
        put_record(&mut bytes, 1, 4, &[(0x12, 1)], &[])?;
    }
    let again = rewritten(rt.alloc(), &bytes)?;
    assert!(rt; again.as_slice() == bytes.as_slice());
    bytes.push(0)?;
    assert_eq!(rt; refusal(rt.alloc(), &bytes), Some(LogError::TooMany));
    Ok(())
}

#[test]
fn logs_that_have_no_text(rt: HostRuntime) -> Result<(), Fail> {
    let mut log = read_log(rt.alloc(), &EXAMPLE)?;
    assert!(rt; is_writable(&log));
    log.spec.vendor = List::from_vec(vec![in rt.alloc(); 0; 255]?);
    assert!(rt; is_writable(&log));
    log.spec.vendor = List::from_vec(vec![in rt.alloc(); 0; 256]?);
    assert!(rt; !is_writable(&log));
    log.spec.vendor = List::new(rt.alloc());
    let digest = Digest::zeros(Bank::Sha1);
    let event = List::from_vec(vec![in rt.alloc(); 0; 1]?);
    let mut digests = List::new(rt.alloc());
    digests.push(Tagged {
        algorithm: 0x0B,
        digest,
    })?;
    log.records.push(FirmwareRecord {
        pcr: 0,
        kind: 4,
        digests,
        event,
    })?;
    assert!(rt; !is_writable(&log));
    Ok(())
}
