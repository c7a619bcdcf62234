//! Locks, refusals and texts against expected values.
use cel_record::{CelRecord, read_records};
use component_make::{LockError, Locked, component_text, lock_firmware, raw};
use component_tree::{Tree, load_tree};
use hash_bank::{Bank, Digest, Digests};
use pcr_replay::{combined, measured};
use pl_base::{List, MemFiles, Memory, Name};
use record_match::explain;
use std::alloc::Global;
use std::test::Fail;
use tcg_log::{Algorithm, FirmwareLog, FirmwareRecord, SpecId, Tagged, is_writable};

const NO_ACTION: u32 = 3;

const SEPARATOR: u32 = 4;

const ACTION: u32 = 5;

// "abc" under SHA-1 to SHA-512 (FIPS 180-4).
const ABC: [(Bank, &str); 4] = [
    (Bank::Sha1, "a9993e364706816aba3e25717850c26c9cd0d89d"),
    (
        Bank::Sha256,
        "ba7816bf8f01cfea414140de5dae2223b00361a396177a9cb410ff61f20015ad",
    ),
    (
        Bank::Sha384,
        "cb00753f45a35e8bb5a03d699ac65007272c32ab0eded1631a8b605a43ff5bed8086072ba1e7cc2358baeca134c825a7",
    ),
    (
        Bank::Sha512,
        "ddaf35a193617abacc417349ae20413112e6fa4e89a97ea20a9eeee64b55d39a2192992a274fc1a836ba3c23a3feebbd454d4423643ce80e2a9ac94fa54ca49f",
    ),
];

// A firmware record of these digests.
fn record(pcr: u32, kind: u32, digests: List<Tagged>, alloc: Global) -> FirmwareRecord {
    FirmwareRecord {
        pcr,
        kind,
        digests,
        event: List::new(alloc),
    }
}

// One digest of SHA-256 whose bytes are all this one.
fn filled(alloc: Global, byte: u8) -> Result<List<Tagged>, Fail> {
    let mut digests = List::new(alloc);
    digests.push(Tagged {
        algorithm: Bank::Sha256.algorithm(),
        digest: Digest::from_slice(&[byte; 32]).ok_or("no digest")?,
    })?;
    Ok(digests)
}

// A log of SHA-256, SHA-1 and SM3-256.
fn log(alloc: Global, records: List<FirmwareRecord>) -> Result<FirmwareLog, Memory> {
    let mut algorithms = List::new(alloc);
    for (number, size) in [(0x0B, 32), (0x04, 20), (0x12, 32)] {
        algorithms.push(Algorithm { number, size })?;
    }
    Ok(FirmwareLog {
        spec: SpecId {
            platform: 0,
            minor: 0,
            major: 2,
            errata: 0,
            uintn: 2,
            algorithms,
            vendor: List::new(alloc),
        },
        records,
    })
}

// A log of records of these PCRs and types, each so many times; their digests tell the entries apart.
fn log_of(alloc: Global, entries: &[(u32, u32, u32)]) -> Result<FirmwareLog, Fail> {
    let mut records = List::new(alloc);
    let mut byte = 0u8;
    for (pcr, kind, times) in entries {
        for _ in 0..*times {
            records.push(record(*pcr, *kind, filled(alloc, byte)?, alloc))?;
        }
        byte = byte.wrapping_add(1);
    }
    Ok(log(alloc, records)?)
}

// What a lock of the log answers.
fn locked(alloc: Global, log: &FirmwareLog, pcrs: u32) -> Result<Result<Locked, LockError>, Fail> {
    if !is_writable(log) || pcrs >= 1 << 24 {
        return Err("no writable log".into());
    }
    Ok(lock_firmware(alloc, log, pcrs))
}

// The PCR and the first byte of each record's digest of SHA-256.
fn marks(alloc: Global, records: &[CelRecord]) -> Result<Vec<(u8, u8)>, Fail> {
    let mut all = Vec::new(alloc);
    for record in records {
        let digest = record.digests.get(Bank::Sha256).ok_or("no digest")?;
        all.push((record.pcr, digest.as_slice()[0]))?;
    }
    Ok(all)
}

#[test]
fn records_before_and_behind_their_separators(rt: HostRuntime) -> Result<(), Fail> {
    let alloc = rt.alloc();
    let table: [(&[(u32, u32, u32)], u32, &[(u8, u8)], &[(u8, u8)]); 7] = [
        // Nothing.
        (&[], 5, &[], &[]),
        // Separators alone.
        (
            &[(0, SEPARATOR, 1), (1, SEPARATOR, 1), (2, SEPARATOR, 1)],
            5,
            &[],
            &[],
        ),
        // One record before its separator, and one behind.
        (
            &[
                (0, ACTION, 1),
                (0, SEPARATOR, 1),
                (2, SEPARATOR, 1),
                (2, ACTION, 1),
            ],
            5,
            &[(0, 0)],
            &[(2, 3)],
        ),
        // In order, PCRs mixed; a second separator is a late record.
        (
            &[
                (2, ACTION, 1),
                (0, ACTION, 1),
                (2, SEPARATOR, 1),
                (0, ACTION, 1),
                (2, ACTION, 1),
                (0, SEPARATOR, 1),
                (2, SEPARATOR, 1),
                (0, ACTION, 1),
            ],
            5,
            &[(2, 0), (0, 1), (0, 3)],
            &[(2, 4), (2, 6), (0, 7)],
        ),
        // What is not extended has no part, nor has a PCR outside of the mask.
        (
            &[
                (0, NO_ACTION, 2),
                (1, ACTION, 1),
                (0x0102, NO_ACTION, 1),
                (23, ACTION, 1),
                (23, SEPARATOR, 1),
            ],
            1 << 23,
            &[(23, 3)],
            &[],
        ),
        // A separator of another PCR divides nothing.
        (
            &[
                (1, SEPARATOR, 1),
                (3, ACTION, 1),
                (3, SEPARATOR, 1),
                (1, ACTION, 1),
            ],
            0b1010,
            &[(3, 1)],
            &[(1, 3)],
        ),
        // No PCR at all.
        (&[(0, ACTION, 1)], 0, &[], &[]),
    ];
    for (entries, pcrs, early, late) in table {
        let log = log_of(alloc, entries)?;
        let Ok(made) = locked(alloc, &log, pcrs)? else {
            return Err("refused".into());
        };
        assert_eq!(rt; marks(alloc, made.early.as_slice())?.as_slice(), early);
        assert_eq!(rt; marks(alloc, made.late.as_slice())?.as_slice(), late);
    }
    Ok(())
}

#[test]
fn refusals_and_limits(rt: HostRuntime) -> Result<(), Fail> {
    let alloc = rt.alloc();
    let table: [(&[(u32, u32, u32)], u32, Result<(usize, usize), LockError>); 7] = [
        (&[(2, ACTION, 1)], 5, Err(LockError::NoSeparator(2))),
        // The least PCR, whatever the order of the records.
        (
            &[(3, ACTION, 1), (1, ACTION, 1), (3, SEPARATOR, 1)],
            0b1010,
            Err(LockError::NoSeparator(1)),
        ),
        (&[(0, NO_ACTION, 1)], 1, Ok((0, 0))),
        (
            &[(0, ACTION, 256), (0, SEPARATOR, 1), (0, ACTION, 256)],
            1,
            Ok((256, 256)),
        ),
        (
            &[(0, ACTION, 257), (0, SEPARATOR, 1)],
            1,
            Err(LockError::TooMany),
        ),
        (
            &[(0, SEPARATOR, 1), (0, ACTION, 300)],
            1,
            Err(LockError::TooMany),
        ),
        // A missing separator comes before lists that are too long.
        (
            &[(0, ACTION, 257), (0, SEPARATOR, 1), (2, ACTION, 1)],
            5,
            Err(LockError::NoSeparator(2)),
        ),
    ];
    for (entries, pcrs, expected) in table {
        let log = log_of(alloc, entries)?;
        let answer = locked(alloc, &log, pcrs)?.map(|l| (l.early.len(), l.late.len()));
        assert_eq!(rt; answer, expected);
    }
    Ok(())
}

// A record of two of the four banks and of another algorithm keeps the digests of the two.
#[test]
fn digests_of_the_four_banks(rt: HostRuntime) -> Result<(), Fail> {
    let alloc = rt.alloc();
    let mut digests = List::new(alloc);
    let sha1 = Digest::from_slice(&[1; 20]).ok_or("no digest")?;
    let sha256 = Digest::from_slice(&[2; 32]).ok_or("no digest")?;
    for (algorithm, digest) in [(0x12, sha256), (0x04, sha1), (0x0B, sha256)] {
        digests.push(Tagged { algorithm, digest })?;
    }
    let mut records = List::new(alloc);
    records.push(record(0, ACTION, digests, alloc))?;
    records.push(record(0, SEPARATOR, filled(alloc, 7)?, alloc))?;
    let log = log(alloc, records)?;
    let Ok(made) = locked(alloc, &log, 1)? else {
        return Err("refused".into());
    };
    assert_eq!(rt; made.late.len(), 0);
    assert_eq!(rt; made.early.len(), 1);
    for record in made.early.as_slice() {
        assert_eq!(rt; record.digests.get(Bank::Sha1), Some(sha1));
        assert_eq!(rt; record.digests.get(Bank::Sha256), Some(sha256));
        assert_eq!(rt; record.digests.get(Bank::Sha384), None);
        assert_eq!(rt; record.digests.get(Bank::Sha512), None);
    }
    Ok(())
}

#[test]
fn hashes_of_bytes(rt: HostRuntime) -> Result<(), Fail> {
    let made = raw(23, b"abc");
    assert_eq!(rt; made.pcr, 23);
    for (bank, digits) in ABC {
        assert_eq!(rt;
            made.digests.get(bank),
            Some(Digest::from_hex(bank, digits)?)
        );
    }
    Ok(())
}

#[test]
fn texts_read_back(rt: HostRuntime) -> Result<(), Fail> {
    let alloc = rt.alloc();
    let none = component_text(alloc, &[])?;
    assert_eq!(rt; none.as_slice(), b"{\"records\":[]}\n".as_slice());
    let digest = Digest::from_slice(&[0xAB; 32]).ok_or("no digest")?;
    if digest.as_slice().len() != 32 {
        return Err("no digest".into());
    }
    let small = CelRecord {
        pcr: 0,
        digests: Digests {
            sha1: None,
            sha256: Some(digest),
            sha384: None,
            sha512: None,
        },
    };
    let list = [small, raw(7, b"abc")];
    let text = component_text(alloc, &list)?;
    let small_digest =
        "{\"digest\":\"abababababababababababababababababababababababababababababababab\",\"hashAlg\":\"sha256\"}";
    let first = format!(in alloc; "{{\"digests\":[{small_digest}],\"pcr\":0,\"recnum\":0}}")?;
    let mut all = String::new(alloc);
    for (bank, digits) in ABC {
        let name = bank.name();
        let comma = if all.is_empty() { "" } else { "," };
        let one = format!(in alloc; "{comma}{{\"digest\":\"{digits}\",\"hashAlg\":\"{name}\"}}")?;
        all.push_str(one.as_str())?;
    }
    let second = format!(in alloc; "{{\"digests\":[{all}],\"pcr\":7,\"recnum\":1}}")?;
    let expected = format!(in alloc; "{{\"records\":[{first},{second}]}}\n")?;
    assert_eq!(rt; text.as_slice(), expected.as_bytes());
    let Ok(back) = read_records(alloc, text.as_slice()) else {
        return Err("no component file".into());
    };
    assert_eq!(rt; back.as_slice(), list.as_slice());
    Ok(())
}

// The tree of the component files at these paths.
fn tree_of(alloc: Global, files: &[(&str, &[CelRecord])]) -> Result<Tree, Fail> {
    let mut held = MemFiles::new(alloc, List::new(alloc));
    for (path, records) in files {
        if records.len() > 256 {
            return Err("too many records".into());
        }
        held.put(path, component_text(alloc, records)?.as_slice())?;
    }
    let mut folders = Vec::new(alloc);
    folders.push(Name::from_text(alloc, "t")?)?;
    Ok(load_tree(alloc, &mut held, &folders)?)
}

// The first choice of variants that explains what the log measures into a PCR.
fn choice_of(alloc: Global, tree: &Tree, log: &FirmwareLog, pcr: u8) -> Result<Vec<u32>, Fail> {
    if !is_writable(log) {
        return Err("no writable log".into());
    }
    let list = combined(alloc, Some(log), &[])?;
    let digests = measured(alloc, list.as_slice(), pcr, Bank::Sha256)?.ok_or("no digests")?;
    let components = tree.components.as_slice();
    match explain(alloc, components, pcr, Bank::Sha256, digests.as_slice()) {
        Ok(choice) => Ok(choice.into_vec()),
        Err(_) => Err("not explained".into()),
    }
}

// Two logs, each locked under a variant of its own, and a component with the separators of both.
#[test]
fn made_files_explain_their_logs(rt: HostRuntime) -> Result<(), Fail> {
    let alloc = rt.alloc();
    let first = log_of(
        alloc,
        &[
            (0, ACTION, 1),
            (0, SEPARATOR, 1),
            (2, SEPARATOR, 1),
            (2, ACTION, 1),
        ],
    )?;
    let second = log_of(
        alloc,
        &[
            (2, ACTION, 1),
            (0, SEPARATOR, 1),
            (2, SEPARATOR, 1),
            (0, ACTION, 1),
        ],
    )?;
    let (Ok(a), Ok(b)) = (locked(alloc, &first, 5)?, locked(alloc, &second, 5)?) else {
        return Err("refused".into());
    };
    let separators = log_of(
        alloc,
        &[
            (1, SEPARATOR, 1),
            (0, ACTION, 1),
            (2, ACTION, 1),
            (0, SEPARATOR, 1),
            (2, SEPARATOR, 1),
        ],
    )?;
    let Ok(between) = locked(alloc, &separators, 5)? else {
        return Err("refused".into());
    };
    let tree = tree_of(
        alloc,
        &[
            ("t/250-early.pcrlock.d/a.pcrlock", a.early.as_slice()),
            ("t/250-early.pcrlock.d/b.pcrlock", b.early.as_slice()),
            ("t/300-separator.pcrlock", between.early.as_slice()),
            ("t/550-late.pcrlock.d/a.pcrlock", a.late.as_slice()),
            ("t/550-late.pcrlock.d/b.pcrlock", b.late.as_slice()),
        ],
    )?;
    for (log, pcr, choice) in [
        (&first, 0, [0, 0, 0]),
        (&first, 2, [0, 0, 0]),
        (&second, 0, [1, 0, 1]),
        (&second, 2, [1, 0, 1]),
    ] {
        assert_eq!(rt;
            choice_of(alloc, &tree, log, pcr)?.as_slice(),
            choice.as_slice()
        );
    }
    Ok(())
}
