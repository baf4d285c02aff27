//! Calls with ample memory, and answers worked out by hand.

ghost use Rattle.std.specs.Prelude.{◌≡◌, true, OnOk};
ghost use Rattle.std.specs.FinMap as map;
ghost use Rattle.hops_base.specs.declared.key.Key.TheVariants as key;

use crate::{LeaseRow, LeaseTable, ReplyRow};
use hops_base::{ClientNo, InodeId, Key, NoMemory};
use name_space::Reply;
use std::slice;
use std::test::Fail;

const NEW: LeaseRow = LeaseRow { renewed: 0 };

// Gives the client the lease on the file, if it hasn't got it.
fn grant(table: &mut LeaseTable, client: ClientNo, id: InodeId) -> Result<(), NoMemory>
    ensures { OnOk result (map.contains_key table.new.leases.rows (key.Lease client id) ≡ true) }
{
    if table.holds(client, id) {
        return Ok(());
    }
    let lease = Key::Lease(client, id);
    table.lease_reserve(slice::from_ref(&lease))?;
    table.lease_insert(lease, NEW);
    Ok(())
}

// Keeps the reply to a client's call.
fn keep(table: &mut LeaseTable, client: ClientNo, row: ReplyRow) -> Result<(), NoMemory>
    ensures { OnOk result (table.new.replies.rows ≡ map.insert table.old.replies.rows (key.Reply client) row) }
{
    table.reply_reserve(slice::from_ref(&Key::Reply(client)))?;
    table.keep(client, row);
    Ok(())
}

#[test]
fn a_lease_is_its_writers(rt: HostRuntime) -> Result<(), Fail> {
    let mut table = LeaseTable::new(rt.alloc())?;
    grant(&mut table, ClientNo(0), InodeId(2))?;
    grant(&mut table, ClientNo(0), InodeId(2))?;
    assert!(rt; table.holds(ClientNo(0), InodeId(2)));
    assert!(rt; !table.holds(ClientNo(1), InodeId(2)));
    assert!(rt; !table.holds(ClientNo(0), InodeId(3)));
    assert_eq!(rt;
        table.lease_remove(&Key::Lease(ClientNo(0), InodeId(2))),
        Some(NEW)
    );
    assert!(rt; !table.holds(ClientNo(0), InodeId(2)));
    Ok(())
}

#[test]
fn the_last_reply_is_kept(rt: HostRuntime) -> Result<(), Fail> {
    let mut table = LeaseTable::new(rt.alloc())?;
    assert!(rt; table.reply(ClientNo(0)).is_none());
    for (seq, note) in [(1, 4), (2, 8)] {
        let reply = Reply::Truth(true);
        keep(&mut table, ClientNo(0), ReplyRow { seq, note, reply })?;
    }
    assert_eq!(rt;
        table.reply(ClientNo(0)).map(|row| (row.seq, row.note)),
        Some((2, 8))
    );
    assert!(rt; table.reply(ClientNo(1)).is_none());
    Ok(())
}
