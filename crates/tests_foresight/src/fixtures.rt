//! Trees of components that are written as text.
use component_tree::{Tree, load_tree};
use hash_bank::{Bank, hash};
use pl_base::{List, MemFiles, Name};
use std::alloc::{AllocError, Global};
use std::test::Fail;

/// The bank of the trees' digests.
pub(crate) const BANK: Bank = Bank::Sha256;

/// A kernel that is measured into PCR 4 and PCR 11, and five phases in PCR 11.
pub(crate) const BOOT: &str =
    "650-kernel=kK 750-enter-initrd=E 800-leave-initrd=L 850-sysinit=S 900-ready=R 950-shutdown=D";

/// A record of a component file, by one letter: a small one is measured into PCR 4, a capital one into
/// PCR 11, both as the SHA-256 of the small letter; a digit has a digest of SHA-1 alone, in PCR 4.
fn record_text(alloc: Global, letter: u8) -> Result<String, AllocError> {
    let small = [letter.to_ascii_lowercase()];
    if letter.is_ascii_digit() {
        let digest = hash(Bank::Sha1, &small).to_string(alloc)?;
        return format!(in alloc;
            "{{\"pcr\":4,\"digests\":[{{\"hashAlg\":\"sha1\",\"digest\":\"{digest}\"}}]}}"
        );
    }
    let pcr = if letter.is_ascii_uppercase() { 11 } else { 4 };
    let digest = hash(BANK, &small).to_string(alloc)?;
    format!(in alloc;
        "{{\"pcr\":{pcr},\"digests\":[{{\"hashAlg\":\"sha256\",\"digest\":\"{digest}\"}}]}}"
    )
}

/// A component file of the letters' records.
fn file_text(alloc: Global, letters: &str) -> Result<String, AllocError> {
    let mut text = String::from_str(alloc, "[")?;
    for letter in letters.bytes() {
        if text.len() > 1 {
            text.push_str(",")?;
        }
        text.push_str(record_text(alloc, letter)?.as_str())?;
    }
    text.push_str("]")?;
    Ok(text)
}

/// The tree of components as `id=letters|letters id=letters`, with their variants.
pub(crate) fn tree_of(alloc: Global, text: &str) -> Result<Tree, Fail> {
    let mut files = MemFiles::new(alloc, List::new(alloc));
    for component in text.split(' ') {
        let Some((id, variants)) = component.split_once('=') else {
            continue;
        };
        let mut number = 10u64;
        for letters in variants.split('|') {
            let path = format!(in alloc; "t/{id}.pcrlock.d/{number}.pcrlock")?;
            files.put(path.as_str(), file_text(alloc, letters)?.as_bytes())?;
            number = number.wrapping_add(1);
        }
    }
    let mut folders = Vec::new(alloc);
    folders.push(Name::from_text(alloc, "t")?)?;
    Ok(load_tree(alloc, &mut files, &folders)?)
}

/// So many components of two equal variants, which have one record.
pub(crate) fn equal_choices(alloc: Global, count: u32) -> Result<String, AllocError> {
    let mut text = String::new(alloc);
    for number in 0..count {
        text.push_str(format!(in alloc; "{number}=a|a ")?.as_str())?;
    }
    Ok(text)
}
