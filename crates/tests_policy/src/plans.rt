//! Tables against the roots that another implementation gives, and the way up from their leaves.
use crate::fixtures::digest;
use hash_bank::{Bank, Digest, hash};
use or_tree::{OrPlan, build};
use pl_base::List;
use policy_digest::{Group, Row, Table, Values, pcr_count, policy_or, policy_pcr, values_digest};
use std::alloc::Global;
use std::test::Fail;

/// The values of so many PCRs, told apart by a number.
fn values(alloc: Global, count: usize, number: u32) -> Result<Values, Fail> {
    let mut list = Vec::new(alloc);
    for place in 0..count {
        list.push(hash(
            Bank::Sha256,
            &[&number.to_be_bytes()[..], &(place as u64).to_be_bytes()[..]].concat(alloc)?,
        ))?;
    }
    Ok(Values::from_vec(list).ok_or("not 1 to 24 values")?)
}

/// A row of the mask with so many lists.
fn row(alloc: Global, pcrs: u32, lists: u32) -> Result<Row, Fail> {
    let mut choices = List::new(alloc);
    for number in 0..lists {
        choices.push(values(alloc, pcr_count(pcrs), number)?)?;
    }
    Ok(Row { pcrs, choices })
}

/// The branches of a table of rows, each by its mask and the number of its lists.
fn plan(alloc: Global, rows: &[(u32, u32)]) -> Result<OrPlan, Fail> {
    let mut list = List::new(alloc);
    for (pcrs, lists) in rows {
        list.push(row(alloc, *pcrs, *lists)?)?;
    }
    let table = Table {
        bank: Bank::Sha256,
        rows: list,
    };
    if !table.is_valid() {
        return Err("no valid table".into());
    }
    Ok(build(alloc, &table)?)
}

/// Whether the table of these rows has the root of these hexadecimal digits.
fn has_root(alloc: Global, rows: &[(u32, u32)], digits: &str) -> Result<bool, Fail> {
    let plan = plan(alloc, rows)?;
    Ok(plan.root().as_slice() == digest(digits)?.as_slice())
}

/// The same of one row of PCR 11 with so many lists.
fn has_root_by(alloc: Global, lists: u32, digits: &str) -> Result<bool, Fail> {
    has_root(alloc, &[(1 << 11, lists)], digits)
}

#[test]
fn roots_of_one_row_are_those_of_another_implementation(rt: HostRuntime) -> Result<(), Fail> {
    let alloc = rt.alloc();
    for (lists, digits) in [
        (
            1,
            "ec929cd2d9c773954c4fe0f2da32e2cdbf7358f7ac2ca1d991dad1a1d3d95d88",
        ),
        (
            2,
            "ba98d243299babe65e6179cdfc358a3f9dc0bf6cf578716a7d9fcc8622f77ffa",
        ),
        (
            8,
            "5d84d8a8066e0fe9435021aaa6840eeb1445f4cb6ab3a2cfd26d73f01314c76c",
        ),
        (
            9,
            "bf3daf1dbbb94141f14d908be460c1f588866ba320fce1340f6f42b663716f85",
        ),
        (
            64,
            "ce88468af7de8bf13f7e85f40f66f58f72677ec05347dfc1c426ab30d5c2c1d0",
        ),
        (
            65,
            "28c4446b87b98b981708d7c32e385809652f2b7c6c922a800e098fea6d14dcd0",
        ),
        (
            512,
            "e5e271f22c75247c34112579dd70477c18691f98b9d2fb0705c80957b23bba86",
        ),
    ] {
        assert!(rt; has_root_by(alloc, lists, digits)?, "{lists}");
    }
    Ok(())
}

#[test]
fn roots_of_two_pcrs_are_those_of_another_implementation(rt: HostRuntime) -> Result<(), Fail> {
    let alloc = rt.alloc();
    let digits = "c4fdf96f7c5f95b4ad4878c79b748a32e41aacb68b5c6fa773ed62845b0ff361";
    assert!(rt; has_root(alloc, &[(1 << 4, 3), (1 << 11, 9)], digits)?);
    let digits = "e3c30f599e2918bb06c48ffbcc1ba272d99c33223ee3ed484b11f17d090b56e4";
    assert!(rt; has_root(alloc, &[(1 << 4 | 1 << 11, 3)], digits)?);
    Ok(())
}

/// The way up from the leaf of this number in the plan of a table that has one row, of one PCR.
fn way_up(alloc: Global, plan: &OrPlan, number: u32) -> Result<List<Group>, Fail> {
    let values = values_digest(values(alloc, 1, number)?.as_slice());
    let digest = policy_pcr(&Digest::zeros(Bank::Sha256), Bank::Sha256, 1 << 11, &values);
    if plan.rows() != 1 {
        return Err("not one row".into());
    }
    match plan.leaf(0, &digest) {
        Some(place) if place == number => Ok(plan.path(alloc, 0, place)?),
        _ => Err("another leaf".into()),
    }
}

/// The digest that PolicyOR of the group gives.
fn raised(group: &Group) -> Result<Digest, Fail> {
    if group.as_slice().len() < 2 {
        return Err("a group of one".into());
    }
    Ok(policy_or(group))
}

/// A row of nine: the first group's digest and the ninth leaf are joined, and that leaf isn't put into a
/// group of its own.
#[test]
fn nine_leaves_are_eight_and_one(rt: HostRuntime) -> Result<(), Fail> {
    let alloc = rt.alloc();
    let plan = plan(alloc, &[(1 << 11, 9)])?;
    let first = way_up(alloc, &plan, 0)?;
    let last = way_up(alloc, &plan, 8)?;
    let (Some(eight), Some(above)) = (first.as_slice().first(), last.as_slice().first()) else {
        return Err("no group".into());
    };
    assert!(rt; above.as_slice().first() == Some(&raised(eight)?));
    assert_eq!(rt; raised(above)?, plan.root());
    assert_eq!(rt; first.as_slice().get(1), Some(above));
    Ok(())
}

#[test]
fn a_plan_tells_its_rows(rt: HostRuntime) -> Result<(), Fail> {
    let plan = plan(rt.alloc(), &[(1 << 11, 9)])?;
    if plan.rows() != 1 {
        return Err("not one row".into());
    }
    assert_eq!(rt; plan.pcrs(0), 1 << 11);
    assert_eq!(rt; plan.levels(0), 2);
    assert_eq!(rt; plan.bank(), Bank::Sha256);
    Ok(())
}
