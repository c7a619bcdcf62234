//! Reading a firmware log and replaying it, beside what `sha1` and `sha2` alone take for the same
//! hashes of strings that lie ready.
use hash_bank::{Bank, hash_all};
use pcr_replay::{combined, replay_all};
use pl_base::Memory;
use sha1::Sha1;
use sha2::{Digest, Sha256, Sha384, Sha512};
use std::alloc::Global;
use tcg_log::{LIMIT, read_log};

/// The names of the benchmarks.
pub const NAMES: [&str; 3] = ["firmware-read", "firmware-replay", "firmware-hashes"];

/// How long the log is that is made.
#[derive(Clone, Copy)]
pub struct Size {
    /// The records of the log.
    records: u32,
    /// The bytes of each record's event, fewer than 256.
    event: u8,
}

/// A few records.
pub const SMALL: Size = Size {
    records: 3,
    event: 4,
};

/// As many records as a log may have, in just under 4 MiB.
pub const LARGE: Size = Size {
    records: 16_384,
    event: 67,
};

// What stands before the records of a log with the four banks.
const HEAD: &[u8] =
    b"\x00\x00\x00\x00\x03\x00\x00\x00\x00\x00\x00\x00\x00\x00\x00\x00\x00\x00\x00\x00\x00\x00\x00\x00\x00\x00\x00\x00\x2D\x00\x00\x00Spec ID Event03\x00\x00\x00\x00\x00\x00\x02\x00\x02\x04\x00\x00\x00\x04\x00\x14\x00\x0B\x00\x20\x00\x0C\x00\x30\x00\x0D\x00\x40\x00\x00";

// A firmware log with a digest in each of the four banks in every record, over all PCRs.
fn log_bytes(alloc: Global, size: Size) -> Result<Vec<u8>, Memory> {
    let mut bytes = Vec::from_slice(alloc, HEAD)?;
    for number in 0..size.records {
        let pcr = (number % 24) as u8;
        let digests = hash_all(&number.to_le_bytes());
        bytes.extend_from_slice(&[pcr, 0, 0, 0, 13, 0, 0, 0, 4, 0, 0, 0])?;
        for bank in Bank::ALL {
            bytes.extend_from_slice(&bank.algorithm().to_le_bytes())?;
            if let Some(digest) = digests.get(bank) {
                bytes.extend_from_slice(digest.as_slice())?;
            }
        }
        bytes.extend_from_slice(&[size.event, 0, 0, 0])?;
        for _ in 0..size.event {
            bytes.push(7)?;
        }
    }
    Ok(bytes)
}

// Reads a log, and counts its records.
fn read(alloc: Global, bytes: &[u8], rounds: u32) -> anyhow::Result<usize> {
    let mut count = 0;
    for _ in 0..rounds {
        if bytes.len() <= LIMIT {
            count = read_log(alloc, bytes)?.records.len();
        }
    }
    Ok(count)
}

// Replays all PCRs in the four banks over records that were read once, and counts the values.
fn replayed(alloc: Global, bytes: &[u8], rounds: u32) -> anyhow::Result<usize> {
    if LIMIT < bytes.len() {
        return Ok(0);
    }
    let log = read_log(alloc, bytes)?;
    let list = combined(alloc, Some(&log), &[])?;
    let mut count: usize = 0;
    for _ in 0..rounds {
        count = 0;
        for bank in Bank::ALL {
            for value in &replay_all(list.as_slice(), bank, 3) {
                if value.is_some() {
                    count = count.wrapping_add(1);
                }
            }
        }
    }
    Ok(count)
}

// Hashes as many strings as a replay does, and as long ones.
fn hashes(records: u32, rounds: u32) -> usize {
    let string = [7u8; 128];
    let mut sum: usize = 0;
    for _ in 0..rounds {
        sum = 0;
        for _ in 0..records {
            sum = sum.wrapping_add(Sha1::digest(&string[..40])[0] as usize);
            sum = sum.wrapping_add(Sha256::digest(&string[..64])[0] as usize);
            sum = sum.wrapping_add(Sha384::digest(&string[..96])[0] as usize);
            sum = sum.wrapping_add(Sha512::digest(&string[..])[0] as usize);
        }
    }
    sum
}

/// Runs the benchmark of this name on a log of this size for so many rounds, and answers what a
/// round counted.
pub fn run(alloc: Global, name: &str, size: Size, rounds: u32) -> anyhow::Result<usize> {
    match name {
        "firmware-read" => read(alloc, &log_bytes(alloc, size)?, rounds),
        "firmware-replay" => replayed(alloc, &log_bytes(alloc, size)?, rounds),
        _ => Ok(hashes(size.records, rounds)),
    }
}
