//! Calls with ample memory, and answers worked out by hand.

use crate::{Fit, QuotaRow, QuotaTable};
use hops_base::{InodeId, Key};
use std::test::Fail;

const SMALL: QuotaRow = QuotaRow {
    max_names: Some(4),
    max_bytes: Some(100),
    used_names: 3,
    used_bytes: 90,
};

const PASSED: QuotaRow = QuotaRow {
    max_names: Some(1),
    max_bytes: Some(1),
    used_names: 5,
    used_bytes: 5,
};

const MOST: QuotaRow = QuotaRow {
    max_names: None,
    max_bytes: Some(u64::MAX),
    used_names: u64::MAX,
    used_bytes: u64::MAX,
};

#[test]
fn what_fits(rt: HostRuntime) -> Result<(), Fail> {
    for (row, names, bytes, fit) in [
        (SMALL, 1, 10, Fit::Fits),
        (SMALL, 2, 11, Fit::Names(3, 4)),
        (SMALL, 1, 11, Fit::Bytes(90, 100)),
        (PASSED, 0, 0, Fit::Fits),
        (PASSED, 0, 1, Fit::Bytes(5, 1)),
        (PASSED, 1, 0, Fit::Names(5, 1)),
        (MOST, u64::MAX, 0, Fit::Fits),
        (MOST, 1, u64::MAX, Fit::Bytes(u64::MAX, u64::MAX)),
    ] {
        assert_eq!(rt; row.fits(names, bytes), fit);
    }
    Ok(())
}

#[test]
fn what_is_used_rises_and_falls(rt: HostRuntime) -> Result<(), Fail> {
    let mut row = SMALL;
    row.add(2, 30);
    assert_eq!(rt; row.used_names, 5);
    row.sub(5, 120);
    assert_eq!(rt; row.used_bytes, 0);
    Ok(())
}

#[test]
fn a_ready_key_has_no_row(rt: HostRuntime) -> Result<(), Fail> {
    let mut table = QuotaTable::new(rt.alloc())?;
    let keys = [Key::Quota(InodeId(7))];
    table.reserve(&keys)?;
    assert_eq!(rt; table.row(&keys[0]), None);
    Ok(())
}
