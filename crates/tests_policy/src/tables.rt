//! Tables of PCR values: which are valid, and copies of them.
use crate::fixtures::{of_row, other, table};
use hash_bank::{Bank, Digest};
use pl_base::List;
use policy_digest::{Table, Values, is_in_mask, pcr_count};
use std::test::Fail;

#[test]
fn tables_are_valid_or_not(rt: HostRuntime) -> Result<(), Fail> {
    let alloc = rt.alloc();
    let zeros = Digest::zeros(Bank::Sha256);
    assert!(rt; table(alloc, &[zeros, other()])?.is_valid());
    // a list twice
    assert!(rt; !table(alloc, &[zeros, zeros])?.is_valid());
    // a value of another bank
    assert!(rt; !table(alloc, &[Digest::zeros(Bank::Sha1)])?.is_valid());
    // no list, and no row
    assert!(rt; !table(alloc, &[])?.is_valid());
    let empty = Table {
        bank: Bank::Sha256,
        rows: List::new(alloc),
    };
    assert!(rt; !empty.is_valid());
    Ok(())
}

/// A list has as many values as the mask has PCRs.
#[test]
fn lists_have_a_value_of_each_pcr(rt: HostRuntime) -> Result<(), Fail> {
    let alloc = rt.alloc();
    let zeros = Digest::zeros(Bank::Sha256);
    let mut choices = List::new(alloc);
    choices.push(Values::from_vec(vec![in alloc; zeros, other()]?).ok_or("1 to 24 values")?)?;
    let wide = of_row(alloc, 1 << 4 | 1 << 11, choices)?;
    assert!(rt; wide.is_valid());
    let copy = wide.copy(alloc)?;
    assert!(rt; copy.is_valid());
    assert_eq!(rt; copy.rows.len(), 1);
    let mut choices = List::new(alloc);
    choices.push(Values::from_vec(vec![in alloc; zeros]?).ok_or("1 to 24 values")?)?;
    assert!(rt; !of_row(alloc, 1 << 4 | 1 << 11, choices)?.is_valid());
    Ok(())
}

#[test]
fn values_are_compared_and_counted(rt: HostRuntime) -> Result<(), Fail> {
    let alloc = rt.alloc();
    assert!(rt; Values::from_vec(Vec::new(alloc)).is_none());
    let first = Values::from_vec(vec![in alloc; other()]?).ok_or("1 to 24 values")?;
    let second = first.copy(alloc)?;
    assert!(rt; first.is_same(&second));
    assert_eq!(rt; pcr_count(1 << 4 | 1 << 11 | 1 << 23), 3);
    assert!(rt; is_in_mask(1 << 11, 11));
    assert!(rt; !is_in_mask(1 << 11, 10));
    Ok(())
}
