//! Running a script of extends, beside what `sha1` and `sha2` alone take for the same hashes, and a file
//! of TPM commands.
use hash_bank::Banks;
use pcrlock_run::run as run_words;
use pl_base::{List, ListEntropy, MemFiles, MemSink, Memory, Name, RealSink};
use sha1::Sha1;
use sha2::{Digest, Sha256, Sha384, Sha512};
use std::alloc::{AllocError, Global};
use std::io;
use tpm_device::SoftTpm;
use tpm_model::State;

/// The names of the benchmarks.
pub const NAMES: [&str; 3] = ["script-lines", "script-commands", "script-hashes"];

/// The lines of a small script.
pub const SMALL: u32 = 3;

/// The text that each line measures.
const TEXT: &str = "abc";

/// The banks of the TPM.
const ALL_BANKS: Banks = Banks {
    sha1: true,
    sha256: true,
    sha384: true,
    sha512: true,
};

/// A script of so many lines, each of which extends a PCR in four banks.
fn script(alloc: Global, lines: u32) -> Result<String, AllocError> {
    let mut text = String::new(alloc);
    for _ in 0..lines {
        text.push_str("tpm-extend --pcr 11 --text ")?;
        text.push_str(TEXT)?;
        text.push('\n')?;
    }
    Ok(text)
}

/// Commands that fill the TPM's table of sessions, and then ask so many times for the digest of the last
/// one.
fn commands(alloc: Global, lines: u32) -> Result<String, AllocError> {
    let mut text = String::new(alloc);
    for _ in 0..64 {
        text.push_str("start-session\n")?;
    }
    for _ in 0..lines {
        text.push_str("policy-get-digest 0300003f\n")?;
    }
    Ok(text)
}

/// The words by which the file is run.
fn words(alloc: Global, command: &str, option: &str) -> Result<List<Name>, Memory> {
    let mut words = List::new(alloc);
    for word in ["state", command, option, "file"] {
        words.push(Name::from_text(alloc, word)?)?;
    }
    Ok(words)
}

/// Runs the words over a file of this text and a TPM in memory, their output dropped, and answers their
/// status.
fn run_over(alloc: Global, words: &[Name], text: String) -> anyhow::Result<usize> {
    let mut files = MemFiles::new(alloc, List::new(alloc));
    files.put("file", text.as_bytes())?;
    drop(text);
    let mut tpm = SoftTpm::new(State::fresh(alloc, ALL_BANKS), List::new(alloc));
    let mut entropy = ListEntropy::new(List::new(alloc), List::new(alloc));
    let mut out = RealSink::new(io::sink());
    let mut err = MemSink::new(alloc, List::new(alloc));
    let status = run_words(
        alloc,
        words,
        &mut files,
        &mut tpm,
        &mut entropy,
        &mut out,
        &mut err,
    );
    Ok(status.into())
}

/// The hashes of so many lines: the text in the four banks, and a string of the length that an extend
/// hashes in each. It answers the sum of their first bytes.
fn hashes(count: u32) -> usize {
    let string = [7u8; 128];
    let mut sum: usize = 0;
    for _ in 0..count {
        sum = sum.wrapping_add(Sha1::digest(TEXT.as_bytes())[0] as usize);
        sum = sum.wrapping_add(Sha256::digest(TEXT.as_bytes())[0] as usize);
        sum = sum.wrapping_add(Sha384::digest(TEXT.as_bytes())[0] as usize);
        sum = sum.wrapping_add(Sha512::digest(TEXT.as_bytes())[0] as usize);
        sum = sum.wrapping_add(Sha1::digest(&string[..40])[0] as usize);
        sum = sum.wrapping_add(Sha256::digest(&string[..64])[0] as usize);
        sum = sum.wrapping_add(Sha384::digest(&string[..96])[0] as usize);
        sum = sum.wrapping_add(Sha512::digest(&string[..])[0] as usize);
    }
    sum
}

/// Runs the benchmark of this name for a script of so many lines, and answers the script's status, or
/// what the hashes sum to.
pub fn run(alloc: Global, name: &str, count: u32) -> anyhow::Result<usize> {
    match name {
        "script-lines" => {
            let words = words(alloc, "script", "--file")?;
            run_over(alloc, words.as_slice(), script(alloc, count)?)
        }
        "script-commands" => {
            let words = words(alloc, "tpm-exec", "--commands")?;
            run_over(alloc, words.as_slice(), commands(alloc, count)?)
        }
        _ => Ok(hashes(count)),
    }
}
