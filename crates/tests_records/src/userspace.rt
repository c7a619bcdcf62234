//! Userspace logs against expected values of the format.
use cel_record::{CelRecord, RecordKind};
use hash_bank::{Bank, Digest, Digests};
use std::alloc::Global;
use std::test::Fail;
use userspace_log::{SeqError, read_seq, write_seq};

const DIGEST: &str = "0000000000000000000000000000000000000000000000000000000000000001";

const NONE: Digests = Digests {
    sha1: None,
    sha256: None,
    sha384: None,
    sha512: None,
};

fn refusal(rt: &HostRuntime, text: &str) -> Option<SeqError> {
    let bytes = text.as_bytes();
    if bytes.len() > 1048576 {
        return Some(SeqError::Memory);
    }
    read_seq(rt.alloc(), bytes).err()
}

// A log of this many texts that are skipped, and then these bytes.
fn many_skipped(alloc: Global, count: usize, last: &str) -> Result<String, Fail> {
    let mut text = String::new(alloc);
    for _ in 0..count {
        text.push_str("\u{1e}{}\n")?;
    }
    text.push_str(last)?;
    Ok(text)
}

#[test]
fn refuses_the_first_fault(rt: HostRuntime) -> Result<(), Fail> {
    let alloc = rt.alloc();
    let record = "\u{1e}{\"pcr\":11,\"digests\":[]}\n";
    let bad = |number, kind| Some(SeqError::BadRecord { number, kind });
    let table = [
        ("", None),
        ("\n", Some(SeqError::BadSeparator(0))),
        (
            "{\"pcr\":11,\"digests\":[]}\n",
            Some(SeqError::BadSeparator(0)),
        ),
        ("\u{1e}", Some(SeqError::BadSeparator(1))),
        ("\u{1e}{}", Some(SeqError::BadSeparator(3))),
        ("\u{1e}{}\u{1e}{}\n", Some(SeqError::BadSeparator(3))),
        ("\u{1e}{}\n\u{1e}{}", Some(SeqError::BadSeparator(7))),
        ("\u{1e}\n", bad(0, RecordKind::NotJson)),
        (
            "\u{1e}{}\n\u{1e}\u{1e}{}\n",
            Some(SeqError::BadSeparator(5)),
        ),
        ("\u{1e}{}{}\n", bad(0, RecordKind::NotJson)),
        (
            "\u{1e}{\"more\":\"\u{1e}\"}\n",
            Some(SeqError::BadSeparator(10)),
        ),
        ("\u{1e}{\"more\":\"\\u001e\"}\n", None),
        ("\u{1e}[]\n", bad(0, RecordKind::NotObject)),
        ("\u{1e}{}\n\u{1e}7\n", bad(1, RecordKind::NotObject)),
        ("\u{1e}{\"digests\":[]}\n", None),
        ("\u{1e}{\"pcr\":null}\n", bad(0, RecordKind::Pcr)),
        (
            "\u{1e}{\"pcr\":24,\"digests\":[]}\n",
            bad(0, RecordKind::Pcr),
        ),
        ("\u{1e}{\"pcr\":3}\n\u{1e}", bad(0, RecordKind::Digests)),
        ("\u{1e} {\"pcr\":3,\"digests\":[]} \r\n", None),
        ("\u{1e}\u{feff}{}\n", bad(0, RecordKind::NotJson)),
        (record, None),
    ];
    for (text, wanted) in table {
        assert_eq!(rt; refusal(&rt, text), wanted, "{text:?}");
    }
    assert_eq!(rt;
        read_seq(alloc, b"\x1e\xff\n").err(),
        bad(0, RecordKind::NotJson)
    );
    let full = many_skipped(alloc, 4096, "")?;
    assert_eq!(rt; refusal(&rt, full.as_str()), None);
    for last in ["\u{1e}", "\u{1e}7\n"] {
        let over = many_skipped(alloc, 4096, last)?;
        assert_eq!(rt; refusal(&rt, over.as_str()), Some(SeqError::TooMany));
    }
    Ok(())
}

#[test]
fn reads_and_writes_a_log(rt: HostRuntime) -> Result<(), Fail> {
    let alloc = rt.alloc();
    let digest = Digest::from_hex(Bank::Sha256, DIGEST)
        .ok()
        .ok_or("a digest")?;
    let first = CelRecord {
        pcr: 11,
        digests: Digests {
            sha1: None,
            sha256: Some(digest),
            sha384: None,
            sha512: None,
        },
    };
    let second = CelRecord {
        pcr: 0,
        digests: NONE,
    };
    let one = format!(in alloc;
        "\u{1e}{{\"pcr\":11,\"digests\":[{{\"hashAlg\":\"sha256\",\"digest\":\"{DIGEST}\"}}]}}\n"
    )?;
    let text = format!(in alloc;
        "{one}\u{1e}{{\"digests\":[]}}\n\u{1e}{{\"digests\":[],\"pcr\":0}}\n"
    )?;
    let bytes = text.as_bytes();
    assert!(rt; bytes.len() < 1000);
    let Ok(log) = read_seq(alloc, bytes) else {
        return Err("a good log")?;
    };
    assert_eq!(rt; log.skipped, 1);
    let records = [first, second];
    assert_eq!(rt; log.records.as_slice(), records.as_slice());
    let written = write_seq(alloc, &records)?;
    let text = format!(in alloc;
        "\u{1e}{{\"digests\":[{{\"digest\":\"{DIGEST}\",\"hashAlg\":\"sha256\"}}],\"pcr\":11}}\n\u{1e}{{\"digests\":[],\"pcr\":0}}\n"
    )?;
    assert_eq!(rt; written.as_slice(), text.as_bytes());
    let none = write_seq(alloc, &[])?;
    assert_eq!(rt; none.as_slice(), b"".as_slice());
    Ok(())
}
