//! Proofs over trees that are written as text, and files of them.
use crate::fixtures::{BANK, BOOT, tree_of};
use hash_bank::Digest;
use pl_base::List;
use predict_proof::{
    CheckError, Proof, ProofError, ProofFile, check, prove, read_proofs, write_proofs,
};
use predictor::{ForeseeError, Window};
use std::alloc::Global;
use std::test::Fail;

/// The text of the list's file.
fn text_of(alloc: Global, proofs: List<Proof>) -> Result<String, Fail> {
    let file = ProofFile {
        bank: BANK,
        locality: 0,
        proofs,
    };
    Ok(String::from_utf8(write_proofs(alloc, &file)?)?)
}

/// The file of what is proved of the mask's PCRs, or why there is none.
fn proved(alloc: Global, tree: &str, location: &str, mask: u32) -> Result<String, Fail> {
    let tree = tree_of(alloc, tree)?;
    let window = Window::read(alloc, location)?;
    if mask == 0 || mask >= 0x0100_0000 {
        return Err("no mask of PCRs")?;
    }
    match prove(alloc, &tree, &window, mask, BANK, 0) {
        Ok(list) => text_of(alloc, list),
        Err(ForeseeError::NoDigest { .. }) => Ok(String::from_str(alloc, "no digest")?),
        Err(_) => Err("too many")?,
    }
}

/// What the check says of a file: None where it is proved.
fn fault(
    alloc: Global,
    tree: &str,
    location: &str,
    text: &str,
) -> Result<Option<CheckError>, Fail> {
    let tree = tree_of(alloc, tree)?;
    let window = Window::read(alloc, location)?;
    let Ok(file) = read_proofs(alloc, text.as_bytes()) else {
        return Err("no proof file")?;
    };
    let list = file.proofs.as_slice();
    match check(&tree, &window, file.bank, file.locality, list) {
        Ok(()) => Ok(None),
        Err(error) => Ok(Some(error)),
    }
}

#[test]
fn four_cuts_are_proved(rt: HostRuntime) -> Result<(), Fail> {
    let alloc = rt.alloc();
    let text = proved(alloc, BOOT, "760-:940-", 1 << 11)?;
    assert_eq!(rt;
        text.as_str(),
        concat!(
            "pcrlock-proof 1 sha256 0\n",
            "11 2 0,0 38448131be659c46e5d2964cdfa80df9c91717695c228786e688ff4455beccf5\n",
            "11 3 0,0,0 03c2d20f4d473de3f7cc46ddf49a55bfbc237549d229c251c2933e58f5568521\n",
            "11 4 0,0,0,0 ecd86d24c768495babbc1dff5bcf9c9e84c367b2b2de0d73c7cf8f77d1f783ed\n",
            "11 5 0,0,0,0,0 1795e7bec2a7e01d05542421d118a15dc72553390a6a39238a0c1d2b55f02ee6\n",
        )
    );
    assert!(rt; fault(alloc, BOOT, "760-:940-", text.as_str())?.is_none());
    Ok(())
}

#[test]
fn nothing_measured_is_proved(rt: HostRuntime) -> Result<(), Fail> {
    let alloc = rt.alloc();
    let text = proved(alloc, "", "760-:940-", 1 << 17)?;
    assert_eq!(rt;
        text.as_str(),
        concat!(
            "pcrlock-proof 1 sha256 0\n",
            "17 0 - ffffffffffffffffffffffffffffffffffffffffffffffffffffffffffffffff\n",
        )
    );
    assert!(rt; fault(alloc, "", "760-:940-", text.as_str())?.is_none());
    Ok(())
}

/// The second component changes nothing, or leads where the first one led before.
#[test]
fn first_cuts_and_choices_are_given(rt: HostRuntime) -> Result<(), Fail> {
    let alloc = rt.alloc();
    let text = proved(alloc, "100-a=A||A 200-b=|A", "100-a:200-b", 1 << 11)?;
    assert_eq!(rt;
        text.as_str(),
        concat!(
            "pcrlock-proof 1 sha256 0\n",
            "11 1 0 8c374a53782642f7514d087d26a3e733f1b806009a03e04a43b288ef2fa9f9c0\n",
            "11 1 1 0000000000000000000000000000000000000000000000000000000000000000\n",
            "11 2 0,1 df7397cce34036cf7527f2669f014bd6a2356de274e09930a08d369414f34bd9\n",
        )
    );
    assert_eq!(rt;
        proved(alloc, "100-a=1", "100-a", 1 << 4)?.as_str(),
        "no digest"
    );
    Ok(())
}

/// A claim that PCR 11 after the kernel and the first phase holds the value after the kernel.
const TOO_EARLY: &str = concat!(
    "pcrlock-proof 1 sha256 0\n",
    "11 2 0,0 1d1f213d9b59ab02a9ace8f04c1822881b435ebc90264bf3e8db23f498162937\n",
);

/// A claim by a choice of one component, though two stand before the cut.
const TOO_FEW: &str = concat!(
    "pcrlock-proof 1 sha256 0\n",
    "11 2 0 1d1f213d9b59ab02a9ace8f04c1822881b435ebc90264bf3e8db23f498162937\n",
);

/// Whether the fault is that the claim of this number is about PCR 11, which comes to the value.
fn is_different(fault: &Option<CheckError>, value: &str) -> bool {
    match fault {
        Some(
            CheckError::Differs {
                number: 0,
                pcr: 11,
                reached,
            },
        ) => match Digest::from_hex(BANK, value) {
            Ok(value) => reached.as_slice() == value.as_slice(),
            Err(_) => false,
        },
        _ => false,
    }
}

#[test]
fn claims_are_refused(rt: HostRuntime) -> Result<(), Fail> {
    let alloc = rt.alloc();
    let answer = fault(alloc, BOOT, "760-:940-", TOO_EARLY)?;
    let value = "38448131be659c46e5d2964cdfa80df9c91717695c228786e688ff4455beccf5";
    assert!(rt; is_different(&answer, value));
    let answer = fault(alloc, BOOT, "760-:940-", TOO_FEW)?;
    assert!(rt; matches!(answer, Some(CheckError::Choice(0))));
    let answer = fault(alloc, BOOT, "900-:940-", TOO_EARLY)?;
    assert!(rt; matches!(answer, Some(CheckError::Cut(0))));
    Ok(())
}

/// A file of two proofs, by locality 3 in the bank SHA-1.
const TWO: &str = concat!(
    "pcrlock-proof 1 sha1 3\n",
    "23 256 63 00000000000000000000000000000000000000ff\n",
    "0,11 2 0,63 0000000000000000000000000000000000000000,",
    "0000000000000000000000000000000000000001\n",
);

/// What a text is read as: the text of what was read.
fn read_back(alloc: Global, text: &str) -> Result<String, Fail> {
    match read_proofs(alloc, text.as_bytes()) {
        Ok(file) => Ok(String::from_utf8(write_proofs(alloc, &file)?)?),
        Err(_) => Err("refused")?,
    }
}

#[test]
fn a_file_is_read_and_written(rt: HostRuntime) -> Result<(), Fail> {
    let text = read_back(rt.alloc(), TWO)?;
    assert_eq!(rt; text.as_str(), TWO);
    Ok(())
}

/// Whether the line of this number is the first that isn't as it has to be.
fn is_bad_at(alloc: Global, text: &str, line: u32) -> bool {
    match read_proofs(alloc, text.as_bytes()) {
        Err(ProofError::BadLine(number)) => number == line,
        _ => false,
    }
}

#[test]
fn bad_lines_are_counted(rt: HostRuntime) {
    let alloc = rt.alloc();
    assert!(rt; is_bad_at(alloc, "", 0));
    assert!(rt; is_bad_at(alloc, "pcrlock-proof 1 sha256 1\n", 0));
    assert!(rt; is_bad_at(alloc, "pcrlock-proof 1 sha256 0\n04 0 - 00\n", 1));
}
