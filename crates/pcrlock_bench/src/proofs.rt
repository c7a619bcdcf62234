//! Proofs of what is foreseen, made and checked, beside what `sha2` alone takes for as many strings, and as long ones, as
//! the choices of the proofs are hashed of.
use cel_record::{CelRecord, write_cel};
use component_tree::Tree;
use hash_bank::{Bank, Digest as Digested, hash_all};
use pcrlock_line::Reply;
use pcrlock_proofs::Asked;
use pl_base::{List, MemFiles, Name};
use predict_proof::{check, prove};
use predictor::{Window, foresee_joint};
use sha2::{Digest, Sha256};
use std::alloc::Global;

/// The names of the benchmarks.
pub const NAMES: [&str; 7] = [
    "joint-different-256",
    "prove-different-256",
    "check-different-256",
    "check-hashes-256",
    "prove-largest",
    "check-largest",
    "check-largest-hashes",
];

/// How large the inputs are.
#[derive(Clone, Copy)]
pub struct Size {
    /// The components of the largest tree, at most 256.
    components: u32,
    /// Those of them that have two variants, at most 9, so that a PCR has at most 512 values.
    doubled: u32,
    /// The values that each PCR so has.
    values: u32,
    /// The number of the PCRs of the largest tree, from 0 on, at most 24.
    pcrs: u8,
    /// Their mask.
    mask: u32,
    /// The part of the components of the other trees.
    part: u32,
}

/// A few components.
pub const SMALL: Size = Size {
    components: 4,
    doubled: 2,
    values: 4,
    pcrs: 2,
    mask: 0x3,
    part: 16,
};

/// As many components, values and proofs as there may be.
pub const LARGE: Size = Size {
    components: 256,
    doubled: 9,
    values: 512,
    pcrs: 24,
    mask: 0x00FF_FFFF,
    part: 1,
};

/// The PCR that is asked for.
const PCR: u8 = 4;

const BANK: Bank = Bank::Sha256;

/// The window with one cut, behind all components.
fn window(alloc: Global) -> anyhow::Result<Window> {
    match Window::read(alloc, "~") {
        Ok(window) => Ok(window),
        Err(_) => anyhow::bail!("no window"),
    }
}

/// Foresees the states of the PCR so many times, and answers how many there are.
fn foresee(alloc: Global, tree: &Tree, rounds: u32) -> anyhow::Result<usize> {
    let window = window(alloc)?;
    let mut count = 0;
    for _ in 0..rounds {
        count = match foresee_joint(alloc, tree, &window, 1 << PCR, BANK, 0) {
            Ok(states) => states.len(),
            Err(_) => anyhow::bail!("nothing is foreseen"),
        };
    }
    Ok(count)
}

/// Proves them so many times, and answers how many proofs there are.
fn prove_all(alloc: Global, tree: &Tree, rounds: u32) -> anyhow::Result<usize> {
    let window = window(alloc)?;
    let mut count = 0;
    for _ in 0..rounds {
        count = match prove(alloc, tree, &window, 1 << PCR, BANK, 0) {
            Ok(proofs) => proofs.len(),
            Err(_) => anyhow::bail!("nothing is proved"),
        };
    }
    Ok(count)
}

/// Proves them once, checks the proofs so many times, and answers how many there are.
fn check_all(alloc: Global, tree: &Tree, rounds: u32) -> anyhow::Result<usize> {
    let window = window(alloc)?;
    let Ok(proofs) = prove(alloc, tree, &window, 1 << PCR, BANK, 0) else {
        anyhow::bail!("nothing is proved");
    };
    for _ in 0..rounds {
        if check(tree, &window, BANK, 0, proofs.as_slice()).is_err() {
            anyhow::bail!("not proved");
        }
    }
    Ok(proofs.len())
}

/// So many extends in SHA-256, by `sha2` alone. It answers the sum of the first bytes.
fn hashes(count: u32) -> usize {
    let string = [7u8; 64];
    let mut sum: usize = 0;
    for _ in 0..count {
        sum = sum.wrapping_add(Sha256::digest(&string[..])[0] as usize);
    }
    sum
}

/// The text of a component file that measures these bytes into each of so many PCRs.
fn file_text(alloc: Global, pcrs: u8, bytes: &[u8]) -> anyhow::Result<Vec<u8>> {
    if pcrs > 24 {
        anyhow::bail!("there are 24 PCRs");
    }
    let mut records = List::new(alloc);
    for pcr in 0..pcrs {
        let digests = hash_all(bytes);
        // A move of a record is checked only where the types in it are named.
        let _sha1: &Option<Digested> = &digests.sha1;
        records.push(CelRecord { pcr, digests })?;
    }
    if records.len() > 65536 {
        anyhow::bail!("too many records");
    }
    Ok(write_cel(alloc, records.as_slice())?)
}

/// The files of the largest tree: each variant measures into each PCR, and the first components have two variants.
fn largest_files(alloc: Global, size: Size) -> anyhow::Result<MemFiles> {
    let mut files = MemFiles::new(alloc, List::new(alloc));
    for number in 0..size.components {
        let text = file_text(alloc, size.pcrs, &number.to_be_bytes())?;
        let path = format!(in alloc; "tree/{number}-step.pcrlock")?;
        files.put(path.as_str(), text.as_slice())?;
        if number < size.doubled {
            let text = file_text(alloc, size.pcrs, &number.wrapping_add(256).to_be_bytes())?;
            let path = format!(in alloc; "tree/{number}-step.pcrlock.d/other.pcrlock")?;
            files.put(path.as_str(), text.as_slice())?;
        }
    }
    Ok(files)
}

/// The length of what a command printed.
fn printed(reply: &Reply) -> anyhow::Result<usize> {
    match reply {
        Reply::Fine(text) => Ok(text.len()),
        Reply::Refused(_) => anyhow::bail!("refused"),
    }
}

/// Runs `prove` over the largest tree so many times, and then `check-proof` so many times.
fn run_commands(alloc: Global, size: Size, proved: u32, checked: u32) -> anyhow::Result<usize> {
    let mut files = largest_files(alloc, size)?;
    let folders = [Name::from_text(alloc, "tree")?];
    let path = Name::from_text(alloc, "proofs")?;
    let window = window(alloc)?;
    if size.mask == 0 || size.mask >= 0x0100_0000 {
        anyhow::bail!("there are 24 PCRs");
    }
    let asked = Asked {
        pcrs: size.mask,
        bank: BANK,
        locality: 0,
        joint: false,
    };
    let mut count = 0;
    for _ in 0..proved {
        count = match pcrlock_proofs::prove(alloc, &mut files, &path, &folders, &window, asked) {
            Ok(reply) => printed(&reply)?,
            Err(_) => anyhow::bail!("stopped"),
        };
    }
    for _ in 0..checked {
        count = match pcrlock_proofs::check_proof(alloc, &mut files, &path, &folders, &window) {
            Ok(reply) => printed(&reply)?,
            Err(_) => anyhow::bail!("stopped"),
        };
    }
    Ok(count)
}

/// The hashes of the choices of the proofs over the largest tree, so many times.
fn largest_hashes(size: Size, rounds: u32) -> usize {
    let mut sum = 0;
    for _ in 0..rounds {
        for _ in 0..size.pcrs {
            for _ in 0..size.values {
                sum = hashes(size.components);
            }
        }
    }
    sum
}

/// Runs the benchmark of this name on inputs of this size for so many rounds, and answers what a round found.
pub fn run(alloc: Global, name: &str, size: Size, rounds: u32) -> anyhow::Result<usize> {
    let count = 256 / size.part.max(1);
    match name {
        "prove-largest" => run_commands(alloc, size, rounds, 0),
        "check-largest" => run_commands(alloc, size, 1, rounds),
        "check-largest-hashes" => Ok(largest_hashes(size, rounds)),
        "check-hashes-256" => {
            let mut sum = 0;
            for _ in 0..rounds {
                sum = hashes(count.wrapping_mul(count.wrapping_add(1)) / 2);
            }
            Ok(sum)
        }
        _ => {
            let tree = crate::matching::tree(alloc, count, false)?;
            match name {
                "joint-different-256" => foresee(alloc, &tree, rounds),
                "prove-different-256" => prove_all(alloc, &tree, rounds),
                _ => check_all(alloc, &tree, rounds),
            }
        }
    }
}
