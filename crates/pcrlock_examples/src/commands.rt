//! Command lines that are outside the set, and lines over real files.
use crate::harness::{Said, empty_disk, file_at, one_draw, run_line, run_over, words_of};
use pl_base::{List, ListEntropy, Memory, Name, RealFiles};
use std::test::Fail;
use tpm_state::FileTpm;

/// Words with bars between, behind the path of the state file.
const REFUSED: [&str; 37] = [
    "",
    "-",
    "--",
    "--token|t|unseal",
    "unseal",
    "unseal|t",
    "unseal|--token",
    "unseal|--token=",
    "unseal|--token|",
    "unseal|--token|t|--token|t",
    "unseal|--token|t|--token=u",
    "unseal|--token|t|u",
    "unseal|--token|t|-",
    "unseal|--token|t|--",
    "unseal|--tok|t",
    "unseal|-token|t",
    "unseal|--token|t|--help",
    "unseal|--token|t|--literal|1",
    "unseal|--token|pcrlock.policy",
    "unseal|--token|t|--policy|t",
    "enroll|--token|t|--literal|0|--policy=t",
    "enroll|--token|pcrlock.policy|--literal|0",
    "enroll|--token|t|--bank|sha256",
    "enroll|--token|t|--literal|24",
    "enroll|--token|t|--literal|0|--key|0",
    "enroll|--token|t|--literal|0|--key|",
    "enroll|--token|t|--literal|0|--bank|SHA256",
    "tpm-extend|--pcr|24|--text|x",
    "tpm-extend|--pcr|3,3|--text|x",
    "tpm-extend|--pcr|03|--text|x",
    "tpm-extend|--pcr|3|--text|x|--hex|00",
    "tpm-extend|--pcr|3",
    "tpm-boot|--banks|sha1,sha1",
    "tpm-boot|--locality|1",
    "cel|--firmware-log=",
    "list-components|--components|a,,b",
    "script|--file|s|--index|00ffffff",
];

/// Each is refused before anything is read, drawn or written.
#[test]
fn words_outside_the_set_are_refused(rt: HostRuntime) -> Result<(), Fail> {
    let alloc = rt.alloc();
    for line in REFUSED {
        let ran = run_line(alloc, line, empty_disk(alloc), one_draw(alloc)?)?;
        assert_eq!(rt; ran.err.bytes(), b"bad words\n".as_slice(), "{line}");
        assert!(rt; ran.out.bytes().is_empty(), "{line}");
        assert_eq!(rt; ran.status, 2, "{line}");
        assert!(rt; file_at(&ran.disk, "t").is_empty(), "{line}");
    }
    Ok(())
}

/// What the program says over real files below the folder that a test runs in.
fn said_over_real_files(rt: &HostRuntime, state: &str, line: &str) -> Result<Said, Memory> {
    let alloc = rt.alloc();
    let words = words_of(alloc, line)?;
    let mut tpm = FileTpm::new(RealFiles::new(rt), Name::from_text(alloc, state)?);
    let mut files = RealFiles::new(rt);
    let mut entropy = ListEntropy::new(List::new(alloc), List::new(alloc));
    Ok(run_over(alloc, words.as_slice(), &mut files, &mut tpm, &mut entropy))
}

/// Lines one after the other, with the path of the state file; what they say, and the status. Of a folder
/// nothing is read, and below a regular file there is nothing.
const REAL: [(&str, &str, &str, &str, u8); 9] = [
    ("below/state", "tpm-extend|--pcr|11|--text|abc", "", "", 0),
    (
        "below/state",
        "enroll|--token|below/a/t|--literal|11|--key|00ff",
        "enrolled 81000000\n",
        "",
        0,
    ),
    (
        "below/state",
        "unseal|--token|below/a/t",
        "key 00ff\n",
        "",
        0,
    ),
    (
        "below/state",
        "unseal|--token|below/b/t",
        "",
        "no token: below/b/t\n",
        7,
    ),
    (
        "below/state",
        "cel|--firmware-log|below",
        "",
        "read fault\n",
        5,
    ),
    (
        "below/state",
        "cel|--firmware-log|below/a/t",
        "",
        "malformed: below/a/t: 0\n",
        3,
    ),
    (
        "below/state/x",
        "tpm-extend|--pcr|11|--text|abc",
        "",
        "tpm fault\n",
        5,
    ),
    (
        "below",
        "tpm-extend|--pcr|11|--text|abc",
        "",
        "tpm fault\n",
        5,
    ),
    (
        "below/state",
        "enroll|--token|below/state/t|--literal|11|--key|00ff",
        "",
        "write fault\n",
        5,
    ),
];

#[test]
fn real_files_are_read_and_written(rt: HostRuntime) -> Result<(), Fail> {
    for (state, line, out, err, status) in REAL {
        let said = said_over_real_files(&rt, state, line)?;
        assert_eq!(rt; said.err.bytes(), err.as_bytes(), "{line}");
        assert_eq!(rt; said.out.bytes(), out.as_bytes(), "{line}");
        assert_eq!(rt; said.status, status, "{line}");
    }
    Ok(())
}
