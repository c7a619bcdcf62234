//! Recognition and prediction over trees that are made in memory.
use cel_record::{CelRecord, write_cel};
use component_tree::{Component, Tree, Variant, load_tree};
use hash_bank::{Bank, Digest, hash, hash_all};
use pl_base::{List, MemFiles, Memory, Name};
use predictor::{Window, foresee};
use record_match::{MatchError, explain};
use std::alloc::Global;

/// The names of the benchmarks.
pub const NAMES: [&str; 8] = [
    "explain-last",
    "explain-none",
    "foresee-equal-16",
    "foresee-equal-64",
    "foresee-equal-256",
    "foresee-different-16",
    "foresee-different-64",
    "foresee-different-256",
];

/// A small input has the sixteenth part of a large one's components and of its variants.
pub const SMALL: u32 = 16;

/// The whole.
pub const LARGE: u32 = 1;

/// The PCR that is asked for.
const PCR: u8 = 4;

/// Another PCR.
const OTHER: u8 = 5;

const BANK: Bank = Bank::Sha256;

/// The bytes that a variant of a component measures.
fn measured(component: u32, variant: u32) -> [u8; 4] {
    component
        .wrapping_mul(256)
        .wrapping_add(variant)
        .to_le_bytes()
}

/// A variant of one record of its own.
fn variant(alloc: Global, component: u32, number: u32) -> anyhow::Result<Variant> {
    let digests = hash_all(&measured(component, number));
    // A move of a record is checked only where the types in it are named.
    let _sha1: &Option<Digest> = &digests.sha1;
    let mut records = List::new(alloc);
    records.push(CelRecord { pcr: PCR, digests })?;
    let name = Name::from_text(alloc, format!(in alloc; "{number}")?.as_str())?;
    Ok(Variant { name, records })
}

/// A component of so many variants.
fn component(alloc: Global, number: u32, variants: u32) -> anyhow::Result<Component> {
    let mut list = List::new(alloc);
    for place in 0..variants {
        list.push(variant(alloc, number, place)?)?;
    }
    if list.is_empty() || list.len() > 64 {
        anyhow::bail!("not 1 to 64 variants");
    }
    let id = Name::from_text(alloc, format!(in alloc; "{number}-step")?.as_str())?;
    Ok(Component { id, variants: list })
}

/// So many components of so many variants.
fn components(alloc: Global, count: u32, variants: u32) -> anyhow::Result<List<Component>> {
    let mut list = List::new(alloc);
    for number in 0..count {
        list.push(component(alloc, number, variants)?)?;
    }
    Ok(list)
}

/// The digests of the last variant of each component; with `fits` unset the last digest is another.
fn log(alloc: Global, count: u32, variants: u32, fits: bool) -> Result<List<Digest>, Memory> {
    let last = variants.wrapping_sub(1);
    let mut list = List::new(alloc);
    for number in 0..count {
        let is_other = !fits && number.wrapping_add(1) == count;
        let variant = if is_other { variants } else { last };
        list.push(hash(BANK, &measured(number, variant)))?;
    }
    Ok(list)
}

/// Recognises the log so many times, and answers how many components the answer names, or the number
/// of the one that is missing.
fn recognise(
    alloc: Global,
    components: &[Component],
    log: &[Digest],
    rounds: u32,
) -> anyhow::Result<usize> {
    if components.len() > 256 {
        anyhow::bail!("more than 256 components");
    }
    let mut count = 0;
    for _ in 0..rounds {
        count = match explain(alloc, components, PCR, BANK, log) {
            Ok(choice) => choice.len(),
            Err(MatchError::MissingComponent(number)) => number as usize,
            Err(_) => anyhow::bail!("the log isn't recognised"),
        };
    }
    Ok(count)
}

/// The text of a component file that measures into the PCR, the same in each.
fn file_text(alloc: Global, pcr: u8) -> anyhow::Result<Vec<u8>> {
    if pcr > 23 {
        anyhow::bail!("there are 24 PCRs");
    }
    let digests = hash_all(b"step");
    let _sha1: &Option<Digest> = &digests.sha1;
    Ok(write_cel(alloc, &[CelRecord { pcr, digests }])?)
}

/// A tree of so many components, each of two variants that measure the same into the PCR, or of which
/// one measures it into another PCR. So k components give k + 1 values where the variants differ.
pub(crate) fn tree(alloc: Global, count: u32, are_equal: bool) -> anyhow::Result<Tree> {
    let first = file_text(alloc, PCR)?;
    let second = file_text(alloc, if are_equal { PCR } else { OTHER })?;
    let mut files = MemFiles::new(alloc, List::new(alloc));
    for number in 0..count {
        let folder = format!(in alloc; "tree/{number}-step.pcrlock.d")?;
        let path = format!(in alloc; "{folder}/first.pcrlock")?;
        files.put(path.as_str(), first.as_slice())?;
        let path = format!(in alloc; "{folder}/second.pcrlock")?;
        files.put(path.as_str(), second.as_slice())?;
    }
    let folders = [Name::from_text(alloc, "tree")?];
    match load_tree(alloc, &mut files, &folders) {
        Ok(tree) => Ok(tree),
        Err(_) => anyhow::bail!("the files give no tree"),
    }
}

/// Foresees the values behind all components so many times, and answers how many there are.
fn predict(alloc: Global, tree: &Tree, rounds: u32) -> anyhow::Result<usize> {
    let Ok(window) = Window::read(alloc, "~") else {
        anyhow::bail!("no window");
    };
    let mut count = 0;
    for _ in 0..rounds {
        count = match foresee(alloc, tree, &window, PCR, BANK, 0) {
            Ok(values) => values.len(),
            Err(_) => anyhow::bail!("nothing is foreseen"),
        };
    }
    Ok(count)
}

/// Runs the benchmark of this name on the given part of its input for so many rounds, and answers
/// what a round found.
pub fn run(alloc: Global, name: &str, part: u32, rounds: u32) -> anyhow::Result<usize> {
    let part = part.max(1);
    if let Some(kind) = name.strip_prefix("foresee-") {
        let Some((kind, count)) = kind.split_once('-') else {
            anyhow::bail!("no benchmark {name}");
        };
        let count = count.parse::<u32>()? / part;
        let tree = tree(alloc, count, kind == "equal")?;
        return predict(alloc, &tree, rounds);
    }
    let (count, variants) = (256 / part, 64 / part);
    let components = components(alloc, count, variants)?;
    let log = log(alloc, count, variants, name == "explain-last")?;
    recognise(alloc, components.as_slice(), log.as_slice(), rounds)
}
