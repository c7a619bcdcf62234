//! Where a drawn key stands: in the state file alone, until it is unsealed.
use crate::harness::{Disk, Ran, STATE, empty_disk, file_at, one_draw, run_line};
use pl_base::List;
use std::alloc::Global;
use std::test::Fail;

/// The drawn key.
const KEY: [u8; 32] = [7; 32];

/// The same in hexadecimal.
const DIGITS: [u8; 64] = *b"0707070707070707070707070707070707070707070707070707070707070707";

/// Whether the bytes have this part.
fn has_part(bytes: &[u8], part: &[u8]) -> bool {
    part.is_empty() || bytes.windows(part.len()).any(|window| window == part)
}

/// Whether the key stands in the bytes, itself or in hexadecimal.
fn shows_key(bytes: &[u8]) -> bool {
    has_part(bytes, &KEY) || has_part(bytes, &DIGITS)
}

/// Command lines of one machine after the other, and whether the key is drawn and printed there.
const LINES: [(&str, bool, bool); 8] = [
    ("tpm-extend|--pcr|11|--text|abc", false, false),
    ("enroll|--token|t|--literal|11", true, false),
    ("cel", false, false),
    ("unseal|--token|t", false, true),
    ("tpm-extend|--pcr|11|--text|abc", false, false),
    ("unseal|--token|t", false, false),
    ("tpm-boot", false, false),
    ("unseal|--token|t", false, false),
];

/// A run of a line.
fn ran(alloc: Global, line: &str, disk: Disk, is_drawn: bool) -> Result<Ran, Fail> {
    let draws = if is_drawn {
        one_draw(alloc)?
    } else {
        List::new(alloc)
    };
    Ok(run_line(alloc, line, disk, draws)?)
}

#[test]
fn a_drawn_key_stands_in_the_state_file_alone(rt: HostRuntime) -> Result<(), Fail> {
    let alloc = rt.alloc();
    let mut disk = empty_disk(alloc);
    let mut is_sealed = false;
    for (line, is_drawn, is_printed) in LINES {
        is_sealed = is_sealed || is_drawn;
        let left = ran(alloc, line, disk, is_drawn)?;
        assert_eq!(rt; shows_key(left.out.bytes()), is_printed, "{line}");
        assert!(rt; !shows_key(left.err.bytes()), "{line}");
        assert!(rt; !shows_key(file_at(&left.disk, "t")), "{line}");
        assert_eq!(rt;
            has_part(file_at(&left.disk, STATE), &KEY),
            is_sealed,
            "{line}"
        );
        assert!(rt; !has_part(file_at(&left.disk, STATE), &DIGITS), "{line}");
        disk = left.disk;
    }
    Ok(())
}
