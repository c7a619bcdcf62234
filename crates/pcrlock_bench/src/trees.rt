//! Loading a real folder of components, each with its variants in files of one record.
use cel_record::{CelRecord, write_cel};
use component_tree::load_tree;
use hash_bank::{Digest, hash_all};
use pl_base::{Memory, Name, RealFiles};
use std::alloc::Global;
use std::fs;

/// The names of the benchmarks.
pub const NAMES: [&str; 3] = ["tree-64", "tree-256", "tree-1024"];

/// The folder that is made where the program runs, and taken away again.
const FOLDER: &str = "bench-components";

/// The files of each component of a small folder, one a variant.
pub const SMALL: u32 = 2;

/// As many variants as a component may have.
pub const LARGE: u32 = 64;

/// The text of a component file of one record with a digest in each of the four banks.
fn file_text(alloc: Global, number: u32) -> Result<Vec<u8>, Memory> {
    let digests = hash_all(&number.to_le_bytes());
    // A move of a record is checked only where the types in it are named.
    let _sha1: &Option<Digest> = &digests.sha1;
    write_cel(alloc, &[CelRecord { pcr: 11, digests }])
}

/// Makes the folder: so many components, each with a folder of its variants' files.
fn make(rt: &HostRuntime, variants: u32, components: u32) -> anyhow::Result<()> {
    let alloc = rt.alloc();
    for component in 0..components {
        let folder = format!(in alloc; "{FOLDER}/{component}-step.pcrlock.d")?;
        fs::create_dir_all(rt, folder.as_str())?;
        for variant in 0..variants {
            let path = format!(in alloc; "{folder}/kernel-{variant}.pcrlock")?;
            let text = file_text(alloc, variant)?;
            fs::write(rt, path.as_str(), text.as_slice())?;
        }
    }
    Ok(())
}

/// Loads the folder so many times, and counts the variants.
fn load(rt: &HostRuntime, rounds: u32) -> anyhow::Result<usize> {
    let alloc = rt.alloc();
    let mut files = RealFiles::new(rt);
    let folders = [Name::from_text(alloc, FOLDER)?];
    let mut count: usize = 0;
    for _ in 0..rounds {
        count = 0;
        let Ok(tree) = load_tree(alloc, &mut files, &folders) else {
            anyhow::bail!("the folder gives no tree");
        };
        for component in tree.components.as_slice() {
            count = count.wrapping_add(component.variants.len());
        }
    }
    Ok(count)
}

/// Runs the benchmark of this name on a folder of components with so many variants each for so many
/// rounds, and answers how many variants a round loaded.
pub fn run(rt: &HostRuntime, name: &str, variants: u32, rounds: u32) -> anyhow::Result<usize> {
    let components = match name {
        "tree-64" => 1,
        "tree-256" => 4,
        _ => 16,
    };
    make(rt, variants, components)?;
    let count = load(rt, rounds)?;
    fs::remove_dir_all(rt, FOLDER)?;
    Ok(count)
}
