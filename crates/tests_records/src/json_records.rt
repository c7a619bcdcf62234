//! Records, refusals and texts against expected values of the format.
use cel_record::{CelRecord, RecordKind, RecordsError, read_records, record_text, write_cel};
use hash_bank::{Digest, Digests};
use std::alloc::Global;
use std::test::Fail;

const SHA1: &str = "{\"hashAlg\":\"sha1\",\"digest\":\"aD000000000000000000000000000000000000fE\"}";

const SHA256: &str =
    "{\"hashAlg\":\"sha256\",\"digest\":\"0000000000000000000000000000000000000000000000000000000000000001\"}";

const SM3: &str = "{\"hashAlg\":\"sm3_256\",\"digest\":\"00\"}";

fn refusal(alloc: Global, text: &str) -> Option<RecordsError> {
    read_records(alloc, text.as_bytes()).err()
}

// A component file of one good record and then a value with this PCR and these digests.
fn two_values(alloc: Global, pcr: &str, digests: &str) -> Result<String, Fail> {
    Ok(format!(in alloc; "[{{\"pcr\":0,\"digests\":[]}},{{\"pcr\":{pcr},\"digests\":{digests}}}]")?)
}

// A component file of this many records.
fn many_records(alloc: Global, count: usize, last: &str) -> Result<String, Fail> {
    let mut text = String::from_str(alloc, "[")?;
    for _ in 0..count {
        text.push_str("{\"pcr\":7,\"digests\":[]},")?;
    }
    text.push_str(last)?;
    text.push_str("]")?;
    Ok(text)
}

#[test]
fn refuses_each_kind_of_record(rt: HostRuntime) -> Result<(), Fail> {
    let alloc = rt.alloc();
    let table = [
        ("11.0", "[]", RecordKind::Pcr),
        ("1e1", "[]", RecordKind::Pcr),
        ("-0", "[]", RecordKind::Pcr),
        ("24", "[]", RecordKind::Pcr),
        ("18446744073709551616", "[]", RecordKind::Pcr),
        ("\"1\"", "[]", RecordKind::Pcr),
        ("null", "[]", RecordKind::Pcr),
        ("1,\"pcr\":24", "[]", RecordKind::Pcr),
        ("24", "null", RecordKind::Pcr),
        ("1", "null", RecordKind::Digests),
        ("1", "{}", RecordKind::Digests),
        ("1", "[[]]", RecordKind::HashAlg),
        ("1", "[7]", RecordKind::HashAlg),
        ("1", "[{\"hashAlg\":\"sha1\"}]", RecordKind::HashAlg),
        ("1", "[{\"digest\":\"00\"}]", RecordKind::HashAlg),
        (
            "1",
            "[{\"hashAlg\":4,\"digest\":\"00\"}]",
            RecordKind::HashAlg,
        ),
        (
            "1",
            "[{\"hashAlg\":\"sm3_256\",\"digest\":7}]",
            RecordKind::HashAlg,
        ),
        (
            "1",
            "[{\"hashAlg\":\"sha1\",\"digest\":\"000\"}]",
            RecordKind::Length,
        ),
        (
            "1",
            "[{\"hashAlg\":\"sha1\",\"digest\":\"\"}]",
            RecordKind::Length,
        ),
        (
            "1",
            "[{\"hashAlg\":\"sha1\",\"digest\":\"gg00000000000000000000000000000000000000zz\"}]",
            RecordKind::Length,
        ),
        (
            "1",
            "[{\"hashAlg\":\"sha1\",\"digest\":\"000000000000000000000000000000000000000g\"}]",
            RecordKind::Hex,
        ),
        (
            "1",
            "[{\"hashAlg\":\"sha1\",\"digest\":\"@000000000000000000000000000000000000000\"}]",
            RecordKind::Hex,
        ),
    ];
    for (pcr, digests, kind) in table {
        let text = two_values(alloc, pcr, digests)?;
        let wanted = RecordsError::BadRecord { number: 1, kind };
        assert_eq!(rt; refusal(alloc, text.as_str()), Some(wanted), "{text}");
    }
    let twice = format!(in alloc; "[{SHA256},{SHA1},{SM3},{SHA256}]")?;
    let text = two_values(alloc, "1", twice.as_str())?;
    let kind = RecordKind::DigestTwice;
    assert_eq!(rt;
        refusal(alloc, text.as_str()),
        Some(RecordsError::BadRecord { number: 1, kind })
    );
    for (text, kind) in [
        ("[7]", RecordKind::NotObject),
        ("[{\"digests\":[]}]", RecordKind::Pcr),
        ("[{\"pcr\":1}]", RecordKind::Digests),
    ] {
        let wanted = RecordsError::BadRecord { number: 0, kind };
        assert_eq!(rt; refusal(alloc, text), Some(wanted), "{text}");
    }
    Ok(())
}

#[test]
fn refuses_what_is_no_list(rt: HostRuntime) -> Result<(), Fail> {
    let alloc = rt.alloc();
    let table = [
        ("", Some(RecordsError::NotJson)),
        ("[", Some(RecordsError::NotJson)),
        ("[] []", Some(RecordsError::NotJson)),
        ("\u{feff}[]", Some(RecordsError::NotJson)),
        ("7", Some(RecordsError::NotRecords)),
        ("null", Some(RecordsError::NotRecords)),
        ("{}", Some(RecordsError::NotRecords)),
        ("{\"records\":{}}", Some(RecordsError::NotRecords)),
        ("{\"records\":[]}", None),
        (" \n[ ]\t\r\n", None),
    ];
    for (text, wanted) in table {
        assert_eq!(rt; refusal(alloc, text), wanted, "{text}");
    }
    assert_eq!(rt;
        read_records(alloc, b"[\"\xff\"]").err(),
        Some(RecordsError::NotJson)
    );
    for (depth, wanted) in [(126, None), (127, Some(RecordsError::NotJson))] {
        let mut text = String::from_str(alloc, "{\"records\":[],\"more\":")?;
        for _ in 0..depth {
            text.push('[')?;
        }
        for _ in 0..depth {
            text.push(']')?;
        }
        text.push('}')?;
        assert_eq!(rt; refusal(alloc, text.as_str()), wanted, "{depth}");
    }
    let bad = RecordsError::BadRecord {
        number: 255,
        kind: RecordKind::NotObject,
    };
    for (count, last, wanted) in [
        (255, "{\"pcr\":23,\"digests\":[]}", None),
        (256, "7", Some(RecordsError::TooMany)),
        (255, "7,7", Some(bad)),
    ] {
        let text = many_records(alloc, count, last)?;
        assert_eq!(rt; refusal(alloc, text.as_str()), wanted, "{count}");
    }
    Ok(())
}

// The record of PCR 11 with the digests of `SHA1` and `SHA256`.
fn record_of_eleven() -> Option<CelRecord> {
    let first = Digest::from_slice(b"\xad\0\0\0\0\0\0\0\0\0\0\0\0\0\0\0\0\0\0\xfe")?;
    let second = Digest::from_slice(
        b"\0\0\0\0\0\0\0\0\0\0\0\0\0\0\0\0\0\0\0\0\0\0\0\0\0\0\0\0\0\0\0\x01",
    )?;
    if first.as_slice().len() != 20 || second.as_slice().len() != 32 {
        return None;
    }
    Some(CelRecord {
        pcr: 11,
        digests: Digests {
            sha1: Some(first),
            sha256: Some(second),
            sha384: None,
            sha512: None,
        },
    })
}

#[test]
fn reads_and_writes_records(rt: HostRuntime) -> Result<(), Fail> {
    let alloc = rt.alloc();
    let one = format!(in alloc;
        "{{\"recnum\":9,\"pcr\":1,\"pcr\":11,\"digests\":[{SM3},{SHA256},{SHA1}],\"more\":[{{}}]}}"
    )?;
    let text = format!(in alloc; "{{\"records\":[{one}]}}")?;
    let Ok(records) = read_records(alloc, text.as_bytes()) else {
        return Err("a good file")?;
    };
    let wanted = record_of_eleven().ok_or("a digest")?;
    assert_eq!(rt; records.as_slice(), [wanted].as_slice());
    let none = write_cel(alloc, &[])?;
    assert_eq!(rt; none.as_slice(), b"[]".as_slice());
    let written = write_cel(alloc, [wanted, wanted].as_slice())?;
    let sha1 = "{\"digest\":\"ad000000000000000000000000000000000000fe\",\"hashAlg\":\"sha1\"}";
    let sha256 =
        "{\"digest\":\"0000000000000000000000000000000000000000000000000000000000000001\",\"hashAlg\":\"sha256\"}";
    let digest = format!(in alloc; "{sha1},{sha256}")?;
    let text = format!(in alloc;
        "[{{\"digests\":[{digest}],\"pcr\":11,\"recnum\":0}},{{\"digests\":[{digest}],\"pcr\":11,\"recnum\":1}}]"
    )?;
    assert_eq!(rt; written.as_slice(), text.as_bytes());
    let alone = record_text(alloc, &wanted)?;
    let text = format!(in alloc; "{{\"digests\":[{digest}],\"pcr\":11}}")?;
    assert_eq!(rt; alone.as_str(), text.as_str());
    Ok(())
}
