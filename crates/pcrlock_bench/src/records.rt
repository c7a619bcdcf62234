//! Reading a component file and a userspace log, beside what `serde_json` alone takes to read the same
//! texts as values.
use cel_record::{CelRecord, read_records, record_text};
use hash_bank::{Digest, hash_all};
use pl_base::Memory;
use serde_json::Value;
use std::alloc::{AllocError, Global};
use userspace_log::{read_seq, write_seq};

/// The names of the benchmarks.
pub const NAMES: [&str; 4] = [
    "component-records",
    "component-values",
    "log-records",
    "log-values",
];

/// How long the texts are that are made.
#[derive(Clone, Copy)]
pub struct Size {
    /// The records of a component file.
    records: u32,
    /// The bytes that fill up each record of it.
    filler: u32,
    /// The texts of a userspace log.
    texts: u32,
}

/// A few records.
pub const SMALL: Size = Size {
    records: 4,
    filler: 16,
    texts: 5,
};

/// Texts of just under 1 MiB: 256 records with long texts beside them, and records alone.
pub const LARGE: Size = Size {
    records: 256,
    filler: 3_570,
    texts: 2_150,
};

// Records of PCR 11 with a digest in each of the four banks.
fn many_records(alloc: Global, count: u32) -> Result<Vec<CelRecord>, AllocError> {
    let mut records = Vec::new(alloc);
    for number in 0..count {
        let digests = hash_all(&number.to_le_bytes());
        // A move of a record is checked only where the types in it are named.
        let _sha1: &Option<Digest> = &digests.sha1;
        records.push(CelRecord { pcr: 11, digests })?;
    }
    Ok(records)
}

// A component file of records with a digest in each of the four banks, each filled up by a long text.
fn component_file(alloc: Global, size: Size) -> Result<String, Memory> {
    let mut text = String::from_str(alloc, "[")?;
    for number in 0..size.records {
        if number > 0 {
            text.push_str(",\n")?;
        }
        let record = CelRecord {
            pcr: 11,
            digests: hash_all(&number.to_le_bytes()),
        };
        let whole = record_text(alloc, &record)?;
        text.push_str("{\"note\":\"")?;
        for _ in 0..size.filler {
            text.push('x')?;
        }
        text.push_str("\",")?;
        if let Some(members) = whole.as_str().strip_prefix("{") {
            text.push_str(members)?;
        }
    }
    text.push_str("]")?;
    Ok(text)
}

// The bytes of a userspace log of records with a digest in each of the four banks.
fn log_bytes(alloc: Global, size: Size) -> Result<Vec<u8>, Memory> {
    let records = many_records(alloc, size.texts)?;
    write_seq(alloc, records.as_slice())
}

// The JSON texts between the separators and line feeds of a log.
fn texts_of(alloc: Global, bytes: &[u8]) -> Result<Vec<&[u8]>, AllocError> {
    let mut texts = Vec::new(alloc);
    for piece in bytes.split(|byte| *byte == 0x1E) {
        if let [text @ .., b'\n'] = piece {
            texts.push(text)?;
        }
    }
    Ok(texts)
}

// Reads a component file, and counts its records.
fn component_records(alloc: Global, file: &[u8], rounds: u32) -> anyhow::Result<usize> {
    let mut count = 0;
    for _ in 0..rounds {
        count = read_records(alloc, file)?.len();
    }
    Ok(count)
}

// Reads a component file as a value, and counts the items of its array.
fn component_values(alloc: Global, file: &[u8], rounds: u32) -> anyhow::Result<usize> {
    let mut count = 0;
    for _ in 0..rounds {
        let value = Value::from_slice(alloc, file)?;
        count = value.as_array().map_or(0, |items| items.len());
    }
    Ok(count)
}

// Reads a userspace log, and counts its records.
fn log_records(alloc: Global, bytes: &[u8], rounds: u32) -> anyhow::Result<usize> {
    let mut count = 0;
    for _ in 0..rounds {
        if bytes.len() <= 1_048_576 {
            count = read_seq(alloc, bytes)?.records.len();
        }
    }
    Ok(count)
}

// Reads the texts of a userspace log as values, and counts the objects.
fn log_values(alloc: Global, texts: &[&[u8]], rounds: u32) -> anyhow::Result<usize> {
    let mut count: usize = 0;
    for _ in 0..rounds {
        count = 0;
        for text in texts {
            if Value::from_slice(alloc, text)?.is_object() {
                count = count.wrapping_add(1);
            }
        }
    }
    Ok(count)
}

/// Runs the benchmark of this name on texts of this size for so many rounds, and answers how many
/// records or values a round read.
pub fn run(alloc: Global, name: &str, size: Size, rounds: u32) -> anyhow::Result<usize> {
    match name {
        "component-records" => {
            let file = component_file(alloc, size)?;
            component_records(alloc, file.as_bytes(), rounds)
        }
        "component-values" => {
            let file = component_file(alloc, size)?;
            component_values(alloc, file.as_bytes(), rounds)
        }
        "log-records" => {
            let bytes = log_bytes(alloc, size)?;
            log_records(alloc, bytes.as_slice(), rounds)
        }
        "log-values" => {
            let bytes = log_bytes(alloc, size)?;
            let texts = texts_of(alloc, bytes.as_slice())?;
            log_values(alloc, texts.as_slice(), rounds)
        }
        _ => anyhow::bail!("no benchmark {name}"),
    }
}
