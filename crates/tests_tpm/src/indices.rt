//! Names that a TPM 2.0 gave, and each call of a table once.
use hash_bank::{Bank, Digest};
use nv_index::{
    CONTENT_SIZE, DEFINED_ATTRIBUTES, IndexTable, NvPublic, NvRefusal, WRITTEN_ATTRIBUTES,
    index_name,
};
use pl_base::{List, Small};
use std::test::Fail;

// The policy of an index, and the digests in its Name before and after the first write, as a
// TPM 2.0 gives them.
const POLICY: &str = "bd68504317b596eb417e6495afbeaf3285c2235a544f6620e803155b32de49de";

const NAMES: [(u32, &str); 2] = [
    (
        DEFINED_ATTRIBUTES,
        "902c1149e4a8105a06234b416f179664610a4d94c14232ef58dedfd0c0a05ca4",
    ),
    (
        WRITTEN_ATTRIBUTES,
        "9c2f30adc84f4f0aaeb9c8a0580d9d133d1cc3208058fd0a37c43b55bbabf8d2",
    ),
];

#[test]
fn names_are_those_of_a_tpm(rt: HostRuntime) -> Result<(), Fail> {
    let policy = Digest::from_hex(Bank::Sha256, POLICY)?;
    for (attributes, name) in NAMES.iter() {
        let public = NvPublic {
            handle: 0x0180_0100,
            attributes: *attributes,
            policy,
            size: CONTENT_SIZE,
        };
        assert_eq!(rt; index_name(&public), Digest::from_hex(Bank::Sha256, name)?);
    }
    Ok(())
}

#[test]
fn indices_stand_in_order(rt: HostRuntime) -> Result<(), Fail> {
    let policy = Digest::from_hex(Bank::Sha256, POLICY)?;
    let mut table = IndexTable::new(rt.alloc());
    for handle in [0x0180_0100, 0x0100_0000, 0x01FF_FFFF] {
        let public = NvPublic {
            handle,
            attributes: DEFINED_ATTRIBUTES,
            policy,
            size: CONTENT_SIZE,
        };
        assert_eq!(rt; table.define(&public), Ok(()));
        assert_eq!(rt; table.read(handle), Err(NvRefusal::Uninitialized));
    }
    let handles = [0x0100_0000, 0x0180_0100, 0x01FF_FFFF];
    for (index, handle) in table.entries().iter().zip(handles) {
        assert_eq!(rt; index.public.handle, handle);
    }
    Ok(())
}

#[test]
fn a_table_of_one_is_written(rt: HostRuntime) -> Result<(), Fail> {
    let alloc = rt.alloc();
    let policy = Digest::from_hex(Bank::Sha256, POLICY)?;
    let value = Small::from_slice(&[5; 34]).ok_or("34 bytes")?;
    let handle = 0x0180_0100;
    let public = NvPublic {
        handle,
        attributes: DEFINED_ATTRIBUTES,
        policy,
        size: CONTENT_SIZE,
    };
    let mut table = IndexTable::new(alloc);
    if table.define(&public).is_err() {
        return Err("no memory".into());
    }
    assert_eq!(rt; table.write(handle, &policy, &value, 7), Ok(()));
    assert_eq!(rt; table.written(handle), Some(7));
    assert_eq!(rt; table.read(handle), Ok(value));
    let written = NvPublic {
        attributes: WRITTEN_ATTRIBUTES,
        ..public
    };
    assert_eq!(rt; table.public(handle), Ok(written));
    assert_eq!(rt; table.write_refusal(handle, &policy, &value), None);
    assert_eq!(rt; table.undefine(handle), Ok(()));
    assert_eq!(rt; table.entries().len(), 0);
    Ok(())
}

#[test]
fn a_table_of_no_entries_is_empty(rt: HostRuntime) {
    let table = IndexTable::from_entries(List::new(rt.alloc()));
    assert!(rt; table.entries().is_empty());
}
