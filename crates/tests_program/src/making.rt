//! Locks and unlocks on files in memory, against expected texts.
use crate::fixtures::said;
use pcrlock_lock::{FirmwareKind, lock_firmware, lock_raw, unlock_firmware};
use pl_base::{List, MemFiles, Name};
use std::alloc::{AllocError, Global};
use std::test::Fail as Failure;

/// What stands before records of SHA-256 alone in a firmware log.
const SPEC_ID: &[u8] =
    b"\x00\x00\x00\x00\x03\x00\x00\x00\x00\x00\x00\x00\x00\x00\x00\x00\x00\x00\x00\x00\x00\x00\x00\x00\x00\x00\x00\x00\x21\x00\x00\x00\x53\x70\x65\x63\x20\x49\x44\x20\x45\x76\x65\x6e\x74\x30\x33\x00\x00\x00\x00\x00\x00\x02\x00\x02\x01\x00\x00\x00\x0b\x00\x20\x00\x00";

/// The digest of "abc", and that of the four zero bytes of a separator (FIPS 180-4).
const ABC: &[u8] =
    b"\xba\x78\x16\xbf\x8f\x01\xcf\xea\x41\x41\x40\xde\x5d\xae\x22\x23\xb0\x03\x61\xa3\x96\x17\x7a\x9c\xb4\x10\xff\x61\xf2\x00\x15\xad";

const ZEROS: &[u8] =
    b"\xdf\x3f\x61\x98\x04\xa9\x2f\xdb\x40\x57\x19\x2d\xc4\x3d\xd7\x48\xea\x77\x8a\xdc\x52\xbc\x49\x8c\xe8\x05\x24\xc0\x14\xb8\x11\x19";

/// The types of two events.
const SEPARATOR: u32 = 4;

const ACTION: u32 = 5;

/// Files without a record, with that of "abc" in PCR 0, 1, 2 and 3, and with that of "abc" in all banks.
const NONE: &str = "{\"records\":[]}\n";

const IN_0: &str =
    "{\"records\":[{\"digests\":[{\"digest\":\"ba7816bf8f01cfea414140de5dae2223b00361a396177a9cb410ff61f20015ad\",\"hashAlg\":\"sha256\"}],\"pcr\":0,\"recnum\":0}]}\n";

const IN_1: &str =
    "{\"records\":[{\"digests\":[{\"digest\":\"ba7816bf8f01cfea414140de5dae2223b00361a396177a9cb410ff61f20015ad\",\"hashAlg\":\"sha256\"}],\"pcr\":1,\"recnum\":0}]}\n";

const IN_2: &str =
    "{\"records\":[{\"digests\":[{\"digest\":\"ba7816bf8f01cfea414140de5dae2223b00361a396177a9cb410ff61f20015ad\",\"hashAlg\":\"sha256\"}],\"pcr\":2,\"recnum\":0}]}\n";

const IN_3: &str =
    "{\"records\":[{\"digests\":[{\"digest\":\"ba7816bf8f01cfea414140de5dae2223b00361a396177a9cb410ff61f20015ad\",\"hashAlg\":\"sha256\"}],\"pcr\":3,\"recnum\":0}]}\n";

const RAW: &str =
    "{\"records\":[{\"digests\":[{\"digest\":\"a9993e364706816aba3e25717850c26c9cd0d89d\",\"hashAlg\":\"sha1\"},{\"digest\":\"ba7816bf8f01cfea414140de5dae2223b00361a396177a9cb410ff61f20015ad\",\"hashAlg\":\"sha256\"},{\"digest\":\"cb00753f45a35e8bb5a03d699ac65007272c32ab0eded1631a8b605a43ff5bed8086072ba1e7cc2358baeca134c825a7\",\"hashAlg\":\"sha384\"},{\"digest\":\"ddaf35a193617abacc417349ae20413112e6fa4e89a97ea20a9eeee64b55d39a2192992a274fc1a836ba3c23a3feebbd454d4423643ce80e2a9ac94fa54ca49f\",\"hashAlg\":\"sha512\"}],\"pcr\":23,\"recnum\":0}]}\n";

/// A firmware log of events, each by its PCR and its type. Separators have the digest of four zero bytes,
/// the others that of "abc".
fn log_of(alloc: Global, entries: &[(u32, u32)]) -> Result<Vec<u8>, AllocError> {
    let mut bytes = Vec::from_slice(alloc, SPEC_ID)?;
    for (pcr, kind) in entries {
        bytes.extend_from_slice(&pcr.to_le_bytes())?;
        bytes.extend_from_slice(&kind.to_le_bytes())?;
        bytes.extend_from_slice(b"\x01\x00\x00\x00\x0b\x00")?;
        bytes.extend_from_slice(if *kind == SEPARATOR { ZEROS } else { ABC })?;
        bytes.extend_from_slice(&[0; 4])?;
    }
    Ok(bytes)
}

/// What a lock into the folder `c` says, of the log at `f`.
fn locks(
    alloc: Global,
    files: &mut MemFiles,
    kind: FirmwareKind,
    variant: &str,
) -> Result<Vec<u8>, Failure> {
    let log = Name::from_text(alloc, "f")?;
    let folder = Name::from_text(alloc, "c")?;
    let variant = Name::from_text(alloc, variant)?;
    said(
        alloc,
        lock_firmware(alloc, files, kind, Some(&log), &folder, &variant),
    )
}

/// What an unlock of the code says.
fn unlocks(alloc: Global, files: &mut MemFiles, variant: &str) -> Result<Vec<u8>, Failure> {
    let folder = Name::from_text(alloc, "c")?;
    let variant = Name::from_text(alloc, variant)?;
    said(
        alloc,
        unlock_firmware(alloc, files, FirmwareKind::Code, &folder, &variant),
    )
}

/// Where the file of the early and of the late records of the variant `v` stand.
fn paths(kind: FirmwareKind) -> (&'static str, &'static str) {
    match kind {
        FirmwareKind::Code => (
            "c/250-firmware-code-early.pcrlock.d/v.pcrlock",
            "c/550-firmware-code-late.pcrlock.d/v.pcrlock",
        ),
        FirmwareKind::Config => (
            "c/250-firmware-config-early.pcrlock.d/v.pcrlock",
            "c/550-firmware-config-late.pcrlock.d/v.pcrlock",
        ),
    }
}

/// Whether the files hold these bytes at the path.
fn holds(files: &MemFiles, path: &str, text: &str) -> bool {
    match files.get(path) {
        Some(bytes) => bytes == text.as_bytes(),
        None => false,
    }
}

/// Events, and what a lock of the kind says and writes.
const LOCKS: [(FirmwareKind, &[(u32, u32)], &str, &str, &str); 3] = [
    (
        FirmwareKind::Code,
        &[(0, ACTION), (0, SEPARATOR), (2, SEPARATOR), (2, ACTION)],
        "locked 1 1\n",
        IN_0,
        IN_2,
    ),
    (
        FirmwareKind::Config,
        &[
            (0, ACTION),
            (3, ACTION),
            (3, SEPARATOR),
            (1, SEPARATOR),
            (1, ACTION),
        ],
        "locked 1 1\n",
        IN_3,
        IN_1,
    ),
    (
        FirmwareKind::Config,
        &[(2, ACTION)],
        "locked 0 0\n",
        NONE,
        NONE,
    ),
];

#[test]
fn locks_write_two_files(rt: HostRuntime) -> Result<(), Failure> {
    let alloc = rt.alloc();
    for (kind, entries, line, early, late) in LOCKS {
        let mut files = MemFiles::new(alloc, List::new(alloc));
        files.put("f", log_of(alloc, entries)?.as_slice())?;
        let answer = locks(alloc, &mut files, kind, "v")?;
        assert_eq!(rt; answer.as_slice(), line.as_bytes());
        let (first, second) = paths(kind);
        assert!(rt; holds(&files, first, early));
        assert!(rt; holds(&files, second, late));
    }
    Ok(())
}

/// A PCR with a record and no separator.
#[test]
fn a_refused_lock_writes_nothing(rt: HostRuntime) -> Result<(), Failure> {
    let alloc = rt.alloc();
    let mut files = MemFiles::new(alloc, List::new(alloc));
    files.put("f", log_of(alloc, &[(2, ACTION), (0, ACTION)])?.as_slice())?;
    let answer = locks(alloc, &mut files, FirmwareKind::Code, "v")?;
    assert_eq!(rt; answer.as_slice(), b"no separator: pcr 0\n".as_slice());
    let (first, second) = paths(FirmwareKind::Code);
    assert!(rt; files.get(first).is_none() && files.get(second).is_none());
    Ok(())
}

#[test]
fn unlocks_count_the_files(rt: HostRuntime) -> Result<(), Failure> {
    let alloc = rt.alloc();
    let (first, second) = paths(FirmwareKind::Code);
    let mut files = MemFiles::new(alloc, List::new(alloc));
    files.put(first, b"")?;
    files.put(second, b"")?;
    let both = unlocks(alloc, &mut files, "v")?;
    assert_eq!(rt; both.as_slice(), b"unlocked 2\n".as_slice());
    assert!(rt; files.get(first).is_none() && files.get(second).is_none());
    let none = unlocks(alloc, &mut files, "v")?;
    assert_eq!(rt; none.as_slice(), b"unlocked 0\n".as_slice());
    Ok(())
}

#[test]
fn bytes_are_locked(rt: HostRuntime) -> Result<(), Failure> {
    let alloc = rt.alloc();
    let mut files = MemFiles::new(alloc, List::new(alloc));
    files.put("b", b"abc")?;
    let file = Name::from_text(alloc, "b")?;
    let output = Name::from_text(alloc, "o")?;
    let small = said(alloc, lock_raw(alloc, &mut files, &file, 23, &output))?;
    assert_eq!(rt; small.as_slice(), b"locked 1\n".as_slice());
    assert!(rt; holds(&files, "o", RAW));
    Ok(())
}
