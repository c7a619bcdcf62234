//! The commands that print what was measured, on files in memory.
use crate::fixtures::said;
use pcrlock_read::{cel, list_components};
use pl_base::{List, MemFiles, Memory, Name};
use std::alloc::Global;
use std::test::Fail as Failure;

/// A firmware log with one record: a separator of four zero bytes in PCR 0.
const FIRMWARE: &[u8] =
    b"\x00\x00\x00\x00\x03\x00\x00\x00\x00\x00\x00\x00\x00\x00\x00\x00\x00\x00\x00\x00\x00\x00\x00\x00\x00\x00\x00\x00\x21\x00\x00\x00Spec ID Event03\x00\x00\x00\x00\x00\x00\x02\x00\x02\x01\x00\x00\x00\x0b\x00\x20\x00\x00\x00\x00\x00\x00\x04\x00\x00\x00\x01\x00\x00\x00\x0b\x00\xdf\x3f\x61\x98\x04\xa9\x2f\xdb\x40\x57\x19\x2d\xc4\x3d\xd7\x48\xea\x77\x8a\xdc\x52\xbc\x49\x8c\xe8\x05\x24\xc0\x14\xb8\x11\x19\x04\x00\x00\x00\x00\x00\x00\x00";

/// The log's record as text, up to its number.
const SEPARATOR: &str =
    "{\"digests\":[{\"digest\":\"df3f619804a92fdb4057192dc43dd748ea778adc52bc498ce80524c014b81119\",\"hashAlg\":\"sha256\"}],\"pcr\":0,\"recnum\":";

/// A record of userspace behind one that is no record of a PCR.
const USER: &str =
    "\u{1e}{\"content\":1}\n\u{1e}{\"pcr\":11,\"digests\":[{\"hashAlg\":\"sha1\",\"digest\":\"A9993E364706816ABA3E25717850C26C9CD0D89D\"}],\"recnum\":7}\n";

/// The same record as text, up to its number.
const MEASURED: &str =
    "{\"digests\":[{\"digest\":\"a9993e364706816aba3e25717850c26c9cd0d89d\",\"hashAlg\":\"sha1\"}],\"pcr\":11,\"recnum\":";

/// Where the logs stand that no option names.
const FIRMWARE_PATH: &str = "/sys/kernel/security/tpm0/binary_bios_measurements";

const USER_PATH: &str = "/run/log/systemd/tpm2-measure.log";

/// A path that an option names, if it does.
fn named(alloc: Global, path: Option<&str>) -> Result<Option<Name>, Memory> {
    match path {
        Some(path) => Ok(Some(Name::from_text(alloc, path)?)),
        None => Ok(None),
    }
}

/// What `cel` prints with these paths named.
fn printed(
    alloc: Global,
    files: &mut MemFiles,
    firmware: Option<&str>,
    user: Option<&str>,
) -> Result<Vec<u8>, Failure> {
    let firmware = named(alloc, firmware)?;
    let user = named(alloc, user)?;
    said(alloc, cel(alloc, files, firmware.as_ref(), user.as_ref()))
}

#[test]
fn prints_both_logs(rt: HostRuntime) -> Result<(), Failure> {
    let alloc = rt.alloc();
    let mut files = MemFiles::new(alloc, List::new(alloc));
    files.put("f", FIRMWARE)?;
    files.put("u", USER.as_bytes())?;
    let both = printed(alloc, &mut files, Some("f"), Some("u"))?;
    let expected = format!(in alloc; "[{SEPARATOR}0}},{MEASURED}1}}]\n")?;
    assert_eq!(rt; both.as_slice(), expected.as_bytes());
    Ok(())
}

#[test]
fn reads_the_usual_logs(rt: HostRuntime) -> Result<(), Failure> {
    let alloc = rt.alloc();
    let mut files = MemFiles::new(alloc, List::new(alloc));
    files.put(FIRMWARE_PATH, FIRMWARE)?;
    files.put(USER_PATH, USER.as_bytes())?;
    let usual = printed(alloc, &mut files, None, None)?;
    let expected = format!(in alloc; "[{SEPARATOR}0}},{MEASURED}1}}]\n")?;
    assert_eq!(rt; usual.as_slice(), expected.as_bytes());
    Ok(())
}

/// One record.
const ONE: &str = "[{\"pcr\":11,\"digests\":[]}]";

#[test]
fn lists_variants(rt: HostRuntime) -> Result<(), Failure> {
    let alloc = rt.alloc();
    let mut files = MemFiles::new(alloc, List::new(alloc));
    files.put("u/400-y.pcrlock", ONE.as_bytes())?;
    files.put("u/400-y.pcrlock.d/b.pcrlock", b"[]")?;
    let folder = Name::from_text(alloc, "u")?;
    let listed = said(alloc, list_components(alloc, &mut files, &[folder]))?;
    assert_eq!(rt; listed.as_slice(), b"400-y - 1\n400-y b 0\n".as_slice());
    Ok(())
}
