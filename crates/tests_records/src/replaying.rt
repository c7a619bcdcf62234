use cel_record::CelRecord;
use hash_bank::{Bank, Digest, Digests};
use pcr_replay::{combined, measured, replay, replay_all};
use pl_base::{List, Memory};
use std::alloc::Global;
use std::test::*;
use tcg_log::{Algorithm, FirmwareLog, FirmwareRecord, SpecId, Tagged, is_writable};

// SHA-256 of four zero bytes, and of "abc".
const ZEROS: &str = "df3f619804a92fdb4057192dc43dd748ea778adc52bc498ce80524c014b81119";

const ABC: &str = "ba7816bf8f01cfea414140de5dae2223b00361a396177a9cb410ff61f20015ad";

// Puts a firmware record with one digest, of SHA-256, at the end.
fn put(
    alloc: Global,
    records: &mut List<FirmwareRecord>,
    pcr: u32,
    kind: u32,
    digest: Digest,
) -> Result<(), Memory> {
    let mut digests = List::new(alloc);
    digests.push(Tagged {
        algorithm: Bank::Sha256.algorithm(),
        digest,
    })?;
    records.push(FirmwareRecord {
        pcr,
        kind,
        digests,
        event: List::new(alloc),
    })
}

// A log of SHA-256: an EV_NO_ACTION in PCR 0, and separators in PCR 0 and 7.
fn firmware(alloc: Global, digest: Digest) -> Result<FirmwareLog, Memory> {
    let mut algorithms = List::new(alloc);
    algorithms.push(Algorithm {
        number: 0x0B,
        size: 32,
    })?;
    let mut records = List::new(alloc);
    put(alloc, &mut records, 0, 3, digest)?;
    put(alloc, &mut records, 0, 4, digest)?;
    put(alloc, &mut records, 7, 4, digest)?;
    Ok(FirmwareLog {
        spec: SpecId {
            platform: 0,
            minor: 0,
            major: 2,
            errata: 0,
            uintn: 2,
            algorithms,
            vendor: List::new(alloc),
        },
        records,
    })
}

fn user_record(digest: Digest) -> Result<CelRecord, Fail> {
    let sha256 = Some(digest);
    if digest.as_slice().len() != 32 {
        return Err("not SHA-256".into());
    }
    Ok(CelRecord {
        pcr: 11,
        digests: Digests {
            sha1: None,
            sha256,
            sha384: None,
            sha512: None,
        },
    })
}

#[test]
fn both_logs(rt: HostRuntime) -> Result<(), Fail> {
    let zeros = Digest::from_hex(Bank::Sha256, ZEROS)?;
    let abc = Digest::from_hex(Bank::Sha256, ABC)?;
    let log = firmware(rt.alloc(), zeros)?;
    assert!(rt; is_writable(&log));
    let user = [user_record(abc)?, user_record(abc)?];
    let list = combined(rt.alloc(), Some(&log), &user)?;
    assert_eq!(rt; list.len(), 4);
    let list = list.as_slice();
    let table: [(u8, Bank, u8, Option<&str>); 8] = [
        (
            0,
            Bank::Sha256,
            0,
            Some("3d458cfe55cc03ea1f443f1562beec8df51c75e14a9fcf9a7234a13f198e7969"),
        ),
        (
            0,
            Bank::Sha256,
            3,
            Some("50bd7d88f0414b40608f8ffc56fd4f3201b5ed0644e36b8128d33624ebe0f053"),
        ),
        (
            7,
            Bank::Sha256,
            3,
            Some("3d458cfe55cc03ea1f443f1562beec8df51c75e14a9fcf9a7234a13f198e7969"),
        ),
        (
            11,
            Bank::Sha256,
            0,
            Some("bdeb6c6dc63852834c89f67066194207ce7d3806ea40ca58dc079246ef58a926"),
        ),
        (
            12,
            Bank::Sha1,
            4,
            Some("0000000000000000000000000000000000000000"),
        ),
        (
            17,
            Bank::Sha256,
            0,
            Some("ffffffffffffffffffffffffffffffffffffffffffffffffffffffffffffffff"),
        ),
        (11, Bank::Sha1, 0, None),
        (0, Bank::Sha512, 3, None),
    ];
    for (pcr, bank, locality, value) in &table {
        let expected = match value {
            Some(text) => Some(Digest::from_hex(*bank, text)?),
            None => None,
        };
        if *pcr <= 23 {
            assert_eq!(rt; replay(list, *pcr, *bank, *locality), expected);
            let all = replay_all(list, *bank, *locality);
            assert_eq!(rt; all[*pcr as usize], expected);
        }
    }
    Ok(())
}

#[test]
fn digests_of_one_pcr(rt: HostRuntime) -> Result<(), Fail> {
    let abc = Digest::from_hex(Bank::Sha256, ABC)?;
    let list = combined(rt.alloc(), None, &[user_record(abc)?, user_record(abc)?])?;
    let found = measured(rt.alloc(), list.as_slice(), 11, Bank::Sha256)?;
    assert!(rt; matches!(&found, Some(digests) if digests.as_slice() == [abc, abc].as_slice()));
    let nothing = measured(rt.alloc(), list.as_slice(), 4, Bank::Sha384)?;
    assert!(rt; matches!(&nothing, Some(digests) if digests.is_empty()));
    assert!(rt; measured(rt.alloc(), list.as_slice(), 11, Bank::Sha384)?.is_none());
    Ok(())
}
