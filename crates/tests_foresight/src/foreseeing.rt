//! Prediction on trees that are written as text.
use crate::fixtures::{BANK, BOOT, equal_choices, tree_of};
use hash_bank::{Digest, extend, hash, hash_all, start};
use pcr_replay::{LogRecord, Origin, replay_all};
use pl_base::Name;
use policy_digest::Values;
use predictor::{
    Cause, ForeseeError, Protection, Window, WindowError, foresee, foresee_joint, inside, protect,
};
use std::alloc::{AllocError, Global};
use std::test::Fail;

/// A tree like that of one kernel, with another one beside it.
const KERNELS: &str = "650-k=kK|jJ 750-e=E 800-l=L 850-s=S 900-r=R 950-h=H";

/// Between the start of the kernel's phases and the end of them.
const PHASES: &str = "760-:940-";

/// The PCRs of a kernel: 4 and 11.
const BOTH: u32 = 1 << 4 | 1 << 11;

/// The first four digits of each value, with a blank behind.
fn values_text(alloc: Global, values: &[Digest]) -> Result<String, Fail> {
    let mut text = String::new(alloc);
    for value in values {
        let digits = value.to_string(alloc)?;
        text.push_str(digits.as_str().get(..4).ok_or("few digits")?)?;
        text.push(' ')?;
    }
    Ok(text)
}

/// The first four digits of the values of each list, with a slash behind the list.
fn lists_text(alloc: Global, lists: &[Values]) -> Result<String, Fail> {
    let mut text = String::new(alloc);
    for list in lists {
        text.push_str(values_text(alloc, list.as_slice())?.as_str())?;
        text.push('/')?;
    }
    Ok(text)
}

#[test]
fn windows_are_read(rt: HostRuntime) -> Result<(), Fail> {
    let alloc = rt.alloc();
    let window = Window::read(alloc, PHASES)?;
    assert_eq!(rt; window.start.text(), "760-");
    assert_eq!(rt; window.end.text(), "940-");
    let window = Window::read(alloc, "900-")?;
    assert_eq!(rt; window.start.text(), "900-");
    assert_eq!(rt; window.end.text(), "900-");
    Ok(())
}

/// Whether the text is no window.
fn is_bad(alloc: Global, text: &str) -> bool {
    matches!(Window::read(alloc, text), Err(WindowError::BadLocation))
}

#[test]
fn ends_of_windows_stand_in_order(rt: HostRuntime) -> Result<(), Fail> {
    let alloc = rt.alloc();
    assert!(rt; is_bad(alloc, "ab:a"));
    assert!(rt; is_bad(alloc, "760-:"));
    assert!(rt; is_bad(alloc, "a:b:c"));
    let tree = tree_of(alloc, "100-a=a 100-b=b 200-c=c")?;
    assert_eq!(rt; inside(&tree, &Name::from_text(alloc, "100-az")?), 1);
    Ok(())
}

/// What is foreseen of a PCR, as text.
fn foreseen(alloc: Global, components: &str, location: &str, pcr: u8) -> Result<String, Fail> {
    let tree = tree_of(alloc, components)?;
    let window = Window::read(alloc, location)?;
    if pcr > 23 {
        return Err("no such PCR")?;
    }
    match foresee(alloc, &tree, &window, pcr, BANK, 0) {
        Ok(values) => values_text(alloc, values.as_slice()),
        Err(ForeseeError::NoDigest { .. }) => Ok(String::from_str(alloc, "no digest")?),
        Err(_) => Err("too many")?,
    }
}

/// The digits are those of another program.
#[test]
fn one_pcr_is_foreseen(rt: HostRuntime) -> Result<(), Fail> {
    let alloc = rt.alloc();
    let text = foreseen(alloc, BOOT, PHASES, 4)?;
    assert_eq!(rt; text.as_str(), "1d1f ");
    let text = foreseen(alloc, BOOT, PHASES, 11)?;
    assert_eq!(rt; text.as_str(), "3844 03c2 ecd8 1795 ");
    let text = foreseen(alloc, KERNELS, PHASES, 11)?;
    assert_eq!(rt; text.as_str(), "3844 3fe8 03c2 4c85 ecd8 49fd 1795 ef61 ");
    let text = foreseen(alloc, "1=a 2=a|a1|2", "0:2", 4)?;
    assert_eq!(rt; text.as_str(), "no digest");
    Ok(())
}

/// What is foreseen of PCR 4 and 11 together, as text.
fn joint(alloc: Global, components: &str, location: &str) -> Result<String, Fail> {
    let tree = tree_of(alloc, components)?;
    let window = Window::read(alloc, location)?;
    match foresee_joint(alloc, &tree, &window, BOTH, BANK, 0) {
        Ok(states) => lists_text(alloc, states.as_slice()),
        Err(_) => Err("refused")?,
    }
}

#[test]
fn states_of_two_pcrs_are_foreseen(rt: HostRuntime) -> Result<(), Fail> {
    let alloc = rt.alloc();
    let text = joint(alloc, KERNELS, "700-:760-")?;
    assert_eq!(rt;
        text.as_str(),
        "1d1f 1d1f /cc40 cc40 /1d1f 3844 /cc40 3fe8 /"
    );
    let text = joint(alloc, "1=aB|aB 2=|", "0:2")?;
    assert_eq!(rt; text.as_str(), "0000 0000 /8c37 1b36 /");
    Ok(())
}

/// Forty components of two equal variants have one value, which a body that lists choices doesn't find.
#[test]
fn equal_choices_have_one_value(rt: HostRuntime) -> Result<(), Fail> {
    let alloc = rt.alloc();
    let components = equal_choices(alloc, 40)?;
    let text = foreseen(alloc, components.as_str(), "9", 4)?;
    assert_eq!(rt; text.as_str(), "5d06 ");
    let text = joint(alloc, components.as_str(), "9")?;
    assert_eq!(rt; text.as_str(), "5d06 0000 /");
    Ok(())
}

/// What a letter was measured as: a small one into PCR 4, a capital one into PCR 11.
fn measured_letter(letter: u8) -> LogRecord {
    LogRecord {
        origin: Origin::User,
        pcr: if letter.is_ascii_uppercase() { 11 } else { 4 },
        digests: hash_all(&[letter.to_ascii_lowercase()]),
    }
}

/// What was measured, by the letters.
fn log_of(alloc: Global, letters: &str) -> Result<Vec<LogRecord>, AllocError> {
    letters.bytes().map(measured_letter).collect(alloc)
}

/// The values of the 24 PCRs after a log; zeros where a digest is missing.
fn values_after(alloc: Global, letters: &str) -> Result<Vec<Digest>, Fail> {
    let log = log_of(alloc, letters)?;
    let held = replay_all(log.as_slice(), BANK, 0);
    let mut values = Vec::new(alloc);
    for value in &held {
        values.push(value.unwrap_or(Digest::zeros(BANK)))?;
    }
    Ok(values)
}

/// What is protected of PCR 4 and 11, where they hold the replay of another log.
fn protected(
    alloc: Global,
    components: &str,
    log: &str,
    now: &str,
    joint: bool,
) -> Result<Protection, Fail> {
    let tree = tree_of(alloc, components)?;
    let window = Window::read(alloc, PHASES)?;
    let log = log_of(alloc, log)?;
    let values = values_after(alloc, now)?;
    if values.len() != 24 {
        return Err("not 24 values")?;
    }
    let log = log.as_slice();
    match protect(
        alloc,
        &tree,
        &window,
        BOTH,
        BANK,
        log,
        0,
        values.as_slice(),
        joint,
    ) {
        Ok(protection) => Ok(protection),
        Err(_) => Err("refused")?,
    }
}

/// The rows of a protection: each mask and its lists.
fn rows_text(alloc: Global, protection: &Protection) -> Result<String, Fail> {
    let mut text = String::new(alloc);
    for row in protection.table.rows.as_slice() {
        let mask = row.pcrs;
        let lists = lists_text(alloc, row.choices.as_slice())?;
        text.push_str(format!(in alloc; "{mask}: {lists} ")?.as_str())?;
    }
    Ok(text)
}

#[test]
fn each_pcr_is_protected_by_itself(rt: HostRuntime) -> Result<(), Fail> {
    let alloc = rt.alloc();
    let protection = protected(alloc, BOOT, "kKELSR", "kKELSR", false)?;
    assert!(rt; protection.left.is_empty());
    let text = rows_text(alloc, &protection)?;
    assert_eq!(rt; text.as_str(), "16: 1d1f / 2048: 3844 /03c2 /ecd8 /1795 / ");
    Ok(())
}

#[test]
fn pcrs_are_protected_together(rt: HostRuntime) -> Result<(), Fail> {
    let alloc = rt.alloc();
    let protection = protected(alloc, KERNELS, "jJELSR", "jJELSR", true)?;
    assert!(rt; protection.left.is_empty());
    let text = rows_text(alloc, &protection)?;
    assert_eq!(rt;
        text.as_str(),
        "2064: 1d1f 3844 /cc40 3fe8 /1d1f 03c2 /cc40 4c85 /1d1f ecd8 /cc40 49fd /1d1f 1795 /cc40 ef61 / "
    );
    Ok(())
}

/// Whether PCR 4 alone is left out, since its log isn't recognised.
fn is_unrecognised(protection: &Protection) -> bool {
    match protection.left.as_slice() {
        [left] => left.pcr == 4 && left.cause == Cause::Unrecognised,
        _ => false,
    }
}

/// Whether PCR 11 alone is left out, since it holds another value than its log's.
fn is_different(protection: &Protection) -> bool {
    match protection.left.as_slice() {
        [left] => left.pcr == 11 && matches!(left.cause, Cause::ValueDiffers { .. }),
        _ => false,
    }
}

#[test]
fn pcrs_are_left_out(rt: HostRuntime) -> Result<(), Fail> {
    let alloc = rt.alloc();
    let protection = protected(alloc, BOOT, "kKELSRx", "kKELSRx", false)?;
    assert!(rt; is_unrecognised(&protection));
    let text = rows_text(alloc, &protection)?;
    assert_eq!(rt; text.as_str(), "2048: 3844 /03c2 /ecd8 /1795 / ");
    let protection = protected(alloc, BOOT, "kKELSR", "kKELS", false)?;
    assert!(rt; is_different(&protection));
    let text = rows_text(alloc, &protection)?;
    assert_eq!(rt; text.as_str(), "16: 1d1f / ");
    Ok(())
}

/// The value of a PCR after extends by the letters' digests since a restart.
fn value_of(alloc: Global, pcr: u8, letters: &str) -> Result<String, Fail> {
    if pcr > 23 {
        return Err("no such PCR")?;
    }
    let mut value = start(BANK, pcr, 0);
    for letter in letters.bytes() {
        if value.as_slice().len() != BANK.size() {
            return Err("another bank")?;
        }
        value = extend(BANK, &value, &hash(BANK, &[letter]));
    }
    Ok(value.to_string(alloc)?)
}

#[test]
fn values_are_those_of_another_program(rt: HostRuntime) -> Result<(), Fail> {
    let alloc = rt.alloc();
    assert_eq!(rt;
        value_of(alloc, 4, "k")?.as_str(),
        "1d1f213d9b59ab02a9ace8f04c1822881b435ebc90264bf3e8db23f498162937"
    );
    assert_eq!(rt;
        value_of(alloc, 11, "kelsr")?.as_str(),
        "1795e7bec2a7e01d05542421d118a15dc72553390a6a39238a0c1d2b55f02ee6"
    );
    assert_eq!(rt;
        value_of(alloc, 17, "ab")?.as_str(),
        "1302b7b0359e4f3d0ffd4d7b7232d5bbe8a38b8e7539f1cf3a259ff9d48a7ed6"
    );
    Ok(())
}
