//! Runs of the program over files, a state file, random words and outputs in memory, as rows of tables:
//! what is there, the command lines, and what they say and leave.
use cel_record::{CelRecord, write_cel};
use hash_bank::hash_all;
use pcrlock_run::run;
use pl_base::{Entropy, Files, List, ListEntropy, MemFiles, MemSink, Memory, Name};
use std::alloc::Global;
use std::process::Abort;
use std::str;
use std::test::Fail;
use tpm_device::Tpm;
use tpm_state::FileTpm;
use userspace_log::write_seq;

/// The path of the state file, which stands among files of its own.
pub(crate) const STATE: &str = "tpm.state";

/// The random words: one, of 32 equal bytes.
const WORD: [u8; 32] = [7; 32];

/// The most records that are written at once.
const RECORDS: usize = 65_536;

/// What a file holds.
pub(crate) enum Content {
    /// A text.
    Text(&'static str),
    /// Hexadecimal digits in words with blanks between; `HEX*N` stands for N times the same.
    Hex(&'static str),
    /// A component file of records, each a PCR and the text that is hashed into it in all banks.
    Component(&'static [(u8, &'static str)]),
    /// A userspace log of such records.
    User(&'static [(u8, &'static str)]),
}

/// A file.
pub(crate) struct File {
    pub(crate) path: &'static str,
    pub(crate) content: Content,
}

/// A script over some files, and what it says and leaves.
pub(crate) struct Case {
    /// What the case shows.
    pub(crate) shows: &'static str,
    /// The files that are there, the state file among them.
    pub(crate) files: &'static [&'static [File]],
    /// The script.
    pub(crate) script: &'static str,
    /// What it writes on standard output.
    pub(crate) out: &'static str,
    /// What it writes on standard error.
    pub(crate) err: &'static str,
    /// The exit status.
    pub(crate) status: u8,
    /// Some of the files afterwards.
    pub(crate) left: &'static [File],
}

/// Puts the bytes of a word of hexadecimal digits.
fn put_word(alloc: Global, bytes: &mut Vec<u8>, word: &str) -> Result<(), Fail> {
    let (digits, count) = match word.split_once('*') {
        Some((digits, count)) => (digits, count.parse::<u32>()?),
        None => (word, 1),
    };
    let once = hex::decode(alloc, digits)?;
    for _ in 0..count {
        bytes.extend_from_slice(once.as_slice())?;
    }
    Ok(())
}

/// The bytes of words of hexadecimal digits.
fn bytes_of(alloc: Global, text: &str) -> Result<Vec<u8>, Fail> {
    let mut bytes = Vec::new(alloc);
    for word in text.split(' ') {
        put_word(alloc, &mut bytes, word)?;
    }
    Ok(bytes)
}

/// The record of a text that is hashed into a PCR, at most 23, in all banks.
fn record_of(row: &(u8, &str)) -> CelRecord {
    let (pcr, hashed) = row;
    let pcr = *pcr;
    let digests = hash_all(hashed.as_bytes());
    if pcr > 23 {
        return CelRecord { pcr: 23, digests };
    }
    CelRecord { pcr, digests }
}

/// A component file of the records.
fn component_of(alloc: Global, rows: &[(u8, &'static str)]) -> Result<Vec<u8>, Fail> {
    let records = rows.iter().map(record_of).collect::<Vec<CelRecord>>(alloc)?;
    if records.len() > RECORDS {
        return Err("too many records".into());
    }
    Ok(write_cel(alloc, records.as_slice())?)
}

/// A userspace log of the records.
fn user_log_of(alloc: Global, rows: &[(u8, &'static str)]) -> Result<Vec<u8>, Fail> {
    let records = rows.iter().map(record_of).collect::<Vec<CelRecord>>(alloc)?;
    Ok(write_seq(alloc, records.as_slice())?)
}

/// The bytes of a content.
fn content_bytes(alloc: Global, content: &Content) -> Result<Vec<u8>, Fail> {
    match content {
        Content::Text(text) => Ok(Vec::from_slice(alloc, text.as_bytes())?),
        Content::Hex(text) => bytes_of(alloc, text),
        Content::Component(rows) => component_of(alloc, rows),
        Content::User(rows) => user_log_of(alloc, rows),
    }
}

/// The files of a machine: those that commands read and write, and those of the TPM.
#[derive(Drop)]
pub(crate) struct Disk {
    pub(crate) files: MemFiles,
    pub(crate) state: MemFiles,
}

/// No files.
pub(crate) fn empty_disk(alloc: Global) -> Disk {
    Disk {
        files: MemFiles::new(alloc, List::new(alloc)),
        state: MemFiles::new(alloc, List::new(alloc)),
    }
}

/// Sets a file.
pub(crate) fn put_file(disk: &mut Disk, path: &str, bytes: &[u8]) -> Result<(), Memory> {
    if path == STATE {
        disk.state.put(path, bytes)
    } else {
        disk.files.put(path, bytes)
    }
}

/// Sets the files.
fn put_files(alloc: Global, disk: &mut Disk, files: &[File]) -> Result<(), Fail> {
    for file in files {
        put_file(
            disk,
            file.path,
            content_bytes(alloc, &file.content)?.as_slice(),
        )?;
    }
    Ok(())
}

/// Sets the files of several lists.
fn put_all(alloc: Global, disk: &mut Disk, lists: &[&[File]]) -> Result<(), Fail> {
    for files in lists {
        put_files(alloc, disk, files)?;
    }
    Ok(())
}

/// What a run said, and the files as it left them.
#[derive(Drop)]
pub(crate) struct Ran {
    pub(crate) status: u8,
    pub(crate) out: MemSink,
    pub(crate) err: MemSink,
    pub(crate) disk: Disk,
}

/// What a run said.
#[derive(Drop)]
pub(crate) struct Said {
    pub(crate) status: u8,
    pub(crate) out: MemSink,
    pub(crate) err: MemSink,
}

/// Runs the program.
pub(crate) fn run_over<F: Files, T: Tpm, E: Entropy>(
    alloc: Global,
    words: &[Name],
    files: &mut F,
    tpm: &mut T,
    entropy: &mut E,
) -> Said {
    let mut out = MemSink::new(alloc, List::new(alloc));
    let mut err = MemSink::new(alloc, List::new(alloc));
    let status = run(alloc, words, files, tpm, entropy, &mut out, &mut err);
    Said { status, out, err }
}

/// The words of a command line, with bars between; the path of the state file is the first of them.
pub(crate) fn words_of(alloc: Global, line: &str) -> Result<List<Name>, Memory> {
    let mut words = List::new(alloc);
    words.push(Name::from_text(alloc, STATE)?)?;
    for word in line.split('|') {
        words.push(Name::from_text(alloc, word)?)?;
    }
    Ok(words)
}

/// Runs a command line over a machine with these random words.
pub(crate) fn run_line(
    alloc: Global,
    line: &str,
    disk: Disk,
    draws: List<[u8; 32]>,
) -> Result<Ran, Memory> {
    let words = words_of(alloc, line)?;
    let Disk { mut files, state } = disk;
    let mut tpm = FileTpm::new(state, Name::from_text(alloc, STATE)?);
    let mut entropy = ListEntropy::new(draws, List::new(alloc));
    let Said { status, out, err } = run_over(
        alloc,
        words.as_slice(),
        &mut files,
        &mut tpm,
        &mut entropy,
    );
    let state = tpm.into_files();
    let disk = Disk { files, state };
    Ok(Ran {
        status,
        out,
        err,
        disk,
    })
}

/// One random word.
pub(crate) fn one_draw(alloc: Global) -> Result<List<[u8; 32]>, Memory> {
    let mut draws = List::new(alloc);
    draws.push(WORD)?;
    Ok(draws)
}

/// Runs the script of a case.
fn run_case(alloc: Global, case: &Case) -> Result<Ran, Fail> {
    let mut disk = empty_disk(alloc);
    put_all(alloc, &mut disk, case.files)?;
    put_file(&mut disk, "script", case.script.as_bytes())?;
    let draws = one_draw(alloc)?;
    Ok(run_line(alloc, "script|--file|script", disk, draws)?)
}

/// The bytes of a file, none where it isn't there.
pub(crate) fn file_at<'a>(disk: &'a Disk, path: &str) -> &'a [u8] {
    if path == STATE {
        disk.state.get(path).unwrap_or(&[])
    } else {
        disk.files.get(path).unwrap_or(&[])
    }
}

/// The files are left.
fn are_left<R: Abort>(
    rt: &R,
    alloc: Global,
    shows: &str,
    disk: &Disk,
    files: &[File],
) -> Result<(), Fail> {
    for file in files {
        let path = file.path;
        let bytes = content_bytes(alloc, &file.content)?;
        assert_eq!(rt; file_at(disk, path), bytes.as_slice(), "{path}: {shows}");
    }
    Ok(())
}

/// A text of bytes, for a message.
fn shown(bytes: &[u8]) -> &str {
    str::from_utf8(bytes).unwrap_or("no text")
}

/// The cases are so.
pub(crate) fn are_so<R: Abort>(rt: &R, alloc: Global, cases: &[Case]) -> Result<(), Fail> {
    for case in cases {
        let shows = case.shows;
        let ran = run_case(alloc, case)?;
        assert_eq!(rt; shown(ran.err.bytes()), case.err, "{shows}");
        assert_eq!(rt; shown(ran.out.bytes()), case.out, "{shows}");
        assert_eq!(rt; ran.status, case.status, "{shows}");
        are_left(rt, alloc, shows, &ran.disk, case.left)?;
    }
    Ok(())
}
