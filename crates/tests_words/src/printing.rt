//! Printed texts that no case of the program shows, and the words of lines.
use component_tree::{Tree, load_tree};
use hash_bank::{Bank, Digest};
use pcrlock_words::{components_text, counts_text, gen_text, predict_text, split_line};
use pl_base::{List, MemFiles, Name};
use policy_digest::{Row, Table, Values};
use predictor::{Cause, LeftOut, Protection};
use std::alloc::Global;
use std::str;
use std::test::Fail;

// Lines of a script, and their words with a bar behind each.
const LINES: [(&str, &str); 7] = [
    ("", ""),
    (" \t  ", ""),
    ("  unseal   --token\tt  ", "unseal|--token|t|"),
    ("unseal\t \t--token=t\t", "unseal|--token=t|"),
    ("unseal\r", "unseal\r|"),
    ("a \r b", "a|\r|b|"),
    ("tpm-extend --text é\u{a0}ü", "tpm-extend|--text|é\u{a0}ü|"),
];

// The words of a line, with a bar behind each.
fn barred(alloc: Global, line: &str) -> Result<String, Fail> {
    let mut found = String::new(alloc);
    for word in split_line(alloc, line)?.as_slice() {
        found.push_str(word.text())?;
        found.push('|')?;
    }
    Ok(found)
}

#[test]
fn lines_are_cut_at_blanks(rt: HostRuntime) -> Result<(), Fail> {
    for (line, expected) in LINES {
        assert_eq!(rt; barred(rt.alloc(), line)?.as_str(), expected);
    }
    Ok(())
}

// The hashes of `abc` and of `kernel` in SHA-1 (FIPS 180-4).
const ABC: &str = "a9993e364706816aba3e25717850c26c9cd0d89d";

const KERNEL: &str = "c65a0fb7e74ffd2c9fc3a0f9aacb0f6a24b0a68b";

// The digest in SHA-1 that digits spell.
fn digest_of(digits: &str) -> Result<Digest, Fail> {
    Ok(Digest::from_hex(Bank::Sha1, digits)?)
}

// Two components of a record each.
fn two_components(alloc: Global) -> Result<Tree, Fail> {
    let record = b"[{\"pcr\":11,\"digests\":[]}]";
    let mut files = MemFiles::new(alloc, List::new(alloc));
    files.put("c/300-x.pcrlock", record)?;
    files.put("c/400-y.pcrlock.d/b.pcrlock", record)?;
    let folder = Name::from_text(alloc, "c")?;
    match load_tree(alloc, &mut files, &[folder]) {
        Ok(tree) => Ok(tree),
        Err(_) => Err("no tree".into()),
    }
}

#[test]
fn components_are_listed(rt: HostRuntime) -> Result<(), Fail> {
    let tree = two_components(rt.alloc())?;
    let text = components_text(rt.alloc(), &tree)?;
    assert_eq!(rt; str::from_utf8(text.as_slice())?, "300-x - 1\n400-y b 1\n");
    Ok(())
}

// The values in SHA-1 that commas part.
fn values_of(alloc: Global, list: &str) -> Result<Values, Fail> {
    let mut values = Vec::new(alloc);
    for digits in list.split(',') {
        values.push(digest_of(digits)?)?;
    }
    Ok(Values::from_vec(values).ok_or("no values")?)
}

// A row of these PCRs with two choices.
fn row_of(alloc: Global, pcrs: u32, first: &str, second: &str) -> Result<Row, Fail> {
    let mut choices = List::new(alloc);
    choices.push(values_of(alloc, first)?)?;
    choices.push(values_of(alloc, second)?)?;
    Ok(Row { pcrs, choices })
}

// Each cause, by the PCR that it leaves out.
fn left_out(alloc: Global) -> Result<List<LeftOut>, Fail> {
    let differs = Cause::ValueDiffers {
        replayed: digest_of(ABC)?,
        now: digest_of(KERNEL)?,
    };
    let causes = [
        (0, Cause::NoLogDigest),
        (2, differs),
        (7, Cause::MissingComponent(1)),
        (23, Cause::Unrecognised),
    ];
    let mut left = List::new(alloc);
    for (pcr, cause) in causes {
        left.push(LeftOut { pcr, cause })?;
    }
    Ok(left)
}

// A forecast of one row.
fn forecast(alloc: Global, row: Row) -> Result<Protection, Fail> {
    let mut rows = List::new(alloc);
    rows.push(row)?;
    Ok(Protection {
        table: Table {
            bank: Bank::Sha1,
            rows,
        },
        left: left_out(alloc)?,
    })
}

#[test]
fn a_prediction_is_printed(rt: HostRuntime) -> Result<(), Fail> {
    let alloc = rt.alloc();
    let tree = two_components(alloc)?;
    let protection = forecast(alloc, row_of(alloc, 1 << 4, ABC, KERNEL)?)?;
    let text = predict_text(alloc, &protection, &tree, false)?;
    assert_eq!(rt;
        str::from_utf8(text.as_slice())?,
        "0 - no-digest\n2 - value-differs\n4 a9993e364706816aba3e25717850c26c9cd0d89d\n4 c65a0fb7e74ffd2c9fc3a0f9aacb0f6a24b0a68b\n7 - missing 400-y\n23 - unrecognised\n"
    );
    let text = counts_text(alloc, &protection, &tree, false)?;
    assert_eq!(rt;
        str::from_utf8(text.as_slice())?,
        "0 - no-digest\n2 - value-differs\n4 2\n7 - missing 400-y\n23 - unrecognised\n"
    );
    Ok(())
}

// The values of two PCRs in each of two states.
const ONE: &str =
    "a9993e364706816aba3e25717850c26c9cd0d89d,c65a0fb7e74ffd2c9fc3a0f9aacb0f6a24b0a68b";

const OTHER: &str =
    "c65a0fb7e74ffd2c9fc3a0f9aacb0f6a24b0a68b,a9993e364706816aba3e25717850c26c9cd0d89d";

#[test]
fn a_joint_prediction_is_printed(rt: HostRuntime) -> Result<(), Fail> {
    let alloc = rt.alloc();
    let tree = two_components(alloc)?;
    let protection = forecast(alloc, row_of(alloc, 1 << 4 | 1 << 12, ONE, OTHER)?)?;
    let text = predict_text(alloc, &protection, &tree, true)?;
    assert_eq!(rt;
        str::from_utf8(text.as_slice())?,
        "joint 4,12 a9993e364706816aba3e25717850c26c9cd0d89d,c65a0fb7e74ffd2c9fc3a0f9aacb0f6a24b0a68b\njoint 4,12 c65a0fb7e74ffd2c9fc3a0f9aacb0f6a24b0a68b,a9993e364706816aba3e25717850c26c9cd0d89d\n0 - no-digest\n2 - value-differs\n7 - missing 400-y\n23 - unrecognised\n"
    );
    let text = counts_text(alloc, &protection, &tree, true)?;
    assert_eq!(rt;
        str::from_utf8(text.as_slice())?,
        "joint 4,12 2\n0 - no-digest\n2 - value-differs\n7 - missing 400-y\n23 - unrecognised\n"
    );
    Ok(())
}

#[test]
fn a_made_machine_is_printed(rt: HostRuntime) -> Result<(), Fail> {
    let root = digest_of(ABC)?;
    let text = gen_text(rt.alloc(), 512, 4, &root, &[None, Some(23), Some(4)])?;
    assert_eq!(rt;
        str::from_utf8(text.as_slice())?,
        "values 4 512\nvalues 11 4\nroot a9993e364706816aba3e25717850c26c9cd0d89d\nfirst key\nlast refused 23\nother refused 4\n"
    );
    Ok(())
}
