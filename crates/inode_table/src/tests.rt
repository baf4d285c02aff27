//! Calls with ample memory, and answers worked out by hand.

use crate::{Inode, InodeTable, Kind};
use hops_base::{ClientNo, InodeId, Key, OpId, User, UserFault};
use std::alloc::Global;
use std::test::Fail;

fn file(alloc: Global) -> Result<Inode, UserFault> {
    Ok(Inode {
        id: InodeId(5),
        kind: Kind::File,
        len: 100,
        writer: Some(ClientNo(4)),
        mode: 0o640,
        owner: User::read(alloc, "ann")?,
        has_quota: false,
        flag: Some(OpId(9)),
    })
}

#[test]
fn a_copy_is_the_same_inode(rt: HostRuntime) -> Result<(), Fail> {
    let inode = file(rt.alloc())?;
    assert_eq!(rt; inode.copy()?, inode);
    Ok(())
}

#[test]
fn a_ready_key_has_no_inode(rt: HostRuntime) -> Result<(), Fail> {
    let mut table = InodeTable::new(rt.alloc())?;
    let keys = [Key::Gate];
    table.reserve(&keys)?;
    assert_eq!(rt; table.row(&keys[0]), None);
    Ok(())
}
