//! Recognition on trees that are written as text.
use crate::fixtures::{BANK, equal_choices, tree_of};
use component_tree::Tree;
use hash_bank::{Digest, Digests, hash, hash_all};
use pcr_replay::{LogRecord, Origin};
use record_match::{Listing, MatchError, explain, listed_by};
use std::alloc::{AllocError, Global};
use std::test::Fail;

/// The digests of the letters.
fn digests(alloc: Global, letters: &str) -> Result<Vec<Digest>, AllocError> {
    let mut list = Vec::new(alloc);
    for letter in letters.bytes() {
        list.push(hash(BANK, &[letter]))?;
    }
    Ok(list)
}

/// Whether these variants of the components explain the letters in the PCR.
fn chooses(
    alloc: Global,
    components: &str,
    pcr: u8,
    letters: &str,
    variants: &[u32],
) -> Result<bool, Fail> {
    let tree = tree_of(alloc, components)?;
    let list = digests(alloc, letters)?;
    match explain(
        alloc,
        tree.components.as_slice(),
        pcr,
        BANK,
        list.as_slice(),
    ) {
        Ok(choice) => Ok(choice.as_slice() == variants),
        Err(_) => Ok(false),
    }
}

/// Why no variants of the components explain the letters in PCR 4, or None.
fn refusal(alloc: Global, components: &str, letters: &str) -> Result<Option<MatchError>, Fail> {
    let tree = tree_of(alloc, components)?;
    let list = digests(alloc, letters)?;
    match explain(alloc, tree.components.as_slice(), 4, BANK, list.as_slice()) {
        Ok(_) => Ok(None),
        Err(error) => Ok(Some(error)),
    }
}

#[test]
fn lists_are_explained(rt: HostRuntime) -> Result<(), Fail> {
    let alloc = rt.alloc();
    assert!(rt; chooses(alloc, "1=a|ab 2=b", 4, "abb", &[1, 0])?);
    assert!(rt; chooses(alloc, "1=ab|a 2=bc|c 3=|c", 4, "abc", &[0, 1, 0])?);
    assert!(rt; chooses(alloc, "1=aB|bA 2=C", 11, "ac", &[1, 0])?);
    assert!(rt; chooses(alloc, "", 4, "", &[])?);
    Ok(())
}

#[test]
fn refusals_are_told(rt: HostRuntime) -> Result<(), Fail> {
    let alloc = rt.alloc();
    let missing = Some(MatchError::MissingComponent(1));
    assert!(rt; refusal(alloc, "1=a 2=b 3=c", "bac")? == missing);
    let unrecognised = Some(MatchError::Unrecognised);
    assert!(rt; refusal(alloc, "1=a 2=b 3=c", "xaybzc")? == unrecognised);
    let lacking = Some(MatchError::NoDigest {
        component: 1,
        variant: 1,
        place: 1,
    });
    assert!(rt; refusal(alloc, "1=a 2=a|a1|2", "aa")? == lacking);
    Ok(())
}

/// Forty components of two equal variants, which a body that lists choices doesn't end on.
#[test]
fn many_equal_choices_end(rt: HostRuntime) -> Result<(), Fail> {
    let alloc = rt.alloc();
    let components = equal_choices(alloc, 40)?;
    let letters = "aaaaaaaaaaaaaaaaaaaaaaaaaaaaaaaaaaaaaaaab";
    let unrecognised = Some(MatchError::Unrecognised);
    assert!(rt; refusal(alloc, components.as_str(), letters)? == unrecognised);
    Ok(())
}

/// What was measured into PCR 4, with the digest of a letter in SHA-1 and that of another in SHA-256, a blank for none.
fn measured(sha1: u8, sha256: u8) -> LogRecord {
    let first = hash_all(&[sha1]);
    let second = hash_all(&[sha256]);
    LogRecord {
        origin: Origin::User,
        pcr: 4,
        digests: Digests {
            sha1: if sha1 == b' ' { None } else { first.sha1 },
            sha256: if sha256 == b' ' { None } else { second.sha256 },
            sha384: None,
            sha512: None,
        },
    }
}

/// A record shares a bank with those of a component, and agrees there.
#[test]
fn records_are_listed_by_the_first_component(rt: HostRuntime) -> Result<(), Fail> {
    let tree = tree_of(rt.alloc(), "1=A 2=b|1 3=ab 4=1")?;
    assert_eq!(rt; listed_by(&tree, &measured(b' ', b'a')), Some(2));
    assert_eq!(rt; listed_by(&tree, &measured(b' ', b'c')), None);
    assert_eq!(rt; listed_by(&tree, &measured(b'2', b'a')), Some(2));
    assert_eq!(rt; listed_by(&tree, &measured(b'1', b'c')), Some(1));
    Ok(())
}

/// What the index of a tree finds for a record.
fn found(alloc: Global, tree: &Tree, record: &LogRecord) -> Result<Option<u32>, Fail> {
    let index = Listing::new(alloc, tree)?;
    Ok(index.find(tree, record))
}

#[test]
fn an_index_finds_the_same_components(rt: HostRuntime) -> Result<(), Fail> {
    let alloc = rt.alloc();
    let tree = tree_of(alloc, "1=A 2=b|1 3=ab 4=1")?;
    assert_eq!(rt; found(alloc, &tree, &measured(b' ', b'a'))?, Some(2));
    assert_eq!(rt; found(alloc, &tree, &measured(b' ', b'c'))?, None);
    Ok(())
}
