//! The table of leases and replies.

ghost use Rattle.std.specs.Prelude.{◌≡◌, true, Some, option_copied, OnOk, IfOk};
ghost use Rattle.std.specs.FinMap as map;
ghost use Rattle.std.specs.FinSet as set;
ghost use Rattle.hops_base.specs.declared.key.Key.TheVariants as key;
ghost use Rattle.row_store.specs.Table.{has_place, ready_with};

use crate::lease::LeaseRow;
use crate::reply::ReplyRow;
use hops_base::{ClientNo, InodeId, Key, NoMemory};
use row_store::Table;
use std::alloc::Global;
use std::marker::Model;

/// The lease rows by key and the reply rows by key, each with the keys that are ready for one. What is done
/// to the rows of one kind leaves those of the other, and their ready keys, as they were. This project's own.
#[derive(Drop)]
pub struct LeaseTable {
    leases: Table<LeaseRow>,
    replies: Table<ReplyRow>,
}

impl Model for LeaseTable {
    ghost use Rattle.std.specs.Coded.{codes};
    ghost use Rattle.row_store.specs.Table.{coded_table};
    ghost use Rattle.lease_table.specs.Leases.{Leases};
    ghost use Rattle.lease_table.specs.declared.lease.LeaseRow.{LeaseRow};
    ghost use Rattle.lease_table.specs.declared.reply.ReplyRow.{ReplyRow};

    ghost Value = { Leases };

    ghost coded = { Prim.hlevel (codes, coded_table {R = LeaseRow}, coded_table {R = ReplyRow}) };

    ghost view = { λ t. record { leases = t.leases; replies = t.replies } };
}

impl LeaseTable {
    /// No rows, and no ready keys. The table keeps the allocator.
    pub fn new(alloc: Global) -> Result<LeaseTable, NoMemory>
        ensures leases { IfOk result (λ table. table.leases ≡ record { rows = map.empty; ready = set.empty }) }
        ensures replies { IfOk result (λ table. table.replies ≡ record { rows = map.empty; ready = set.empty }) }
    {
        Ok(LeaseTable {
            leases: Table::new(alloc)?,
            replies: Table::new(alloc)?,
        })
    }

    /// Whether the client holds the lease on the file of this id.
    pub fn holds(&self, client: ClientNo, id: InodeId) -> bool
        ensures { result ≡ map.contains_key self.now.leases.rows (key.Lease client id) }
    {
        self.leases.row(&Key::Lease(client, id)).is_some()
    }

    /// The row of the client's last reply. None where it has none.
    pub fn reply(&self, client: ClientNo) -> Option<&ReplyRow>
        ensures { option_copied result ≡ map.get self.now.replies.rows (key.Reply client) }
    {
        self.replies.row(&Key::Reply(client))
    }

    /// The lease row of a key. None where it has none, be it ready for one or not.
    pub fn lease_row(&self, key: &Key) -> Option<&LeaseRow>
        ensures { option_copied result ≡ map.get self.now.leases.rows key.now }
    {
        self.leases.row(key)
    }

    /// Makes each of these keys ready that has no lease row. Keys that were ready stay so. Where memory
    /// runs out, some of the keys may have become ready, and no other key has.
    pub fn lease_reserve(&mut self, keys: &[Key]) -> Result<(), NoMemory>
        ensures rows { self.new.leases.rows ≡ self.old.leases.rows }
        ensures ok { OnOk result (self.new.leases.ready ≡ ready_with self.old.leases keys.now) }
        ensures kept { set.is_subset self.old.leases.ready self.new.leases.ready ≡ true }
        ensures added { set.is_subset self.new.leases.ready (ready_with self.old.leases keys.now) ≡ true }
        ensures replies { self.new.replies ≡ self.old.replies }
    {
        self.leases.reserve(keys)
    }

    /// Puts a lease row under a ready key, which isn't ready then. It takes no memory.
    pub fn lease_insert(&mut self, key: Key, row: LeaseRow)
        requires { set.contains self.old.leases.ready key ≡ true }
        ensures rows { self.new.leases.rows ≡ map.insert self.old.leases.rows key row }
        ensures ready { self.new.leases.ready ≡ set.remove self.old.leases.ready key }
        ensures replies { self.new.replies ≡ self.old.replies }
    {
        self.leases.insert(key, row);
    }

    /// Removes the lease row of a key and gives it back. None where it has none. The key isn't ready for
    /// a lease row then, also where it was before.
    pub fn lease_remove(&mut self, key: &Key) -> Option<LeaseRow>
        ensures row { result ≡ map.get self.old.leases.rows key.now }
        ensures rows { self.new.leases.rows ≡ map.remove self.old.leases.rows key.now }
        ensures ready { self.new.leases.ready ≡ set.remove self.old.leases.ready key.now }
        ensures replies { self.new.replies ≡ self.old.replies }
    {
        self.leases.remove(key)
    }

    /// Puts a lease row in the place of the one that a key has, and gives that back. It takes no memory.
    pub fn lease_set(&mut self, key: &Key, row: LeaseRow) -> LeaseRow
        requires { map.contains_key self.old.leases.rows key.now ≡ true }
        ensures row { Some result ≡ map.get self.old.leases.rows key.now }
        ensures rows { self.new.leases.rows ≡ map.insert self.old.leases.rows key.now row }
        ensures ready { self.new.leases.ready ≡ self.old.leases.ready }
        ensures replies { self.new.replies ≡ self.old.replies }
    {
        self.leases.set(key, row)
    }

    /// The reply row of a key. None where it has none, be it ready for one or not.
    pub fn reply_row(&self, key: &Key) -> Option<&ReplyRow>
        ensures { option_copied result ≡ map.get self.now.replies.rows key.now }
    {
        self.replies.row(key)
    }

    /// Makes each of these keys ready that has no reply row. Keys that were ready stay so. Where memory
    /// runs out, some of the keys may have become ready, and no other key has.
    pub fn reply_reserve(&mut self, keys: &[Key]) -> Result<(), NoMemory>
        ensures rows { self.new.replies.rows ≡ self.old.replies.rows }
        ensures ok { OnOk result (self.new.replies.ready ≡ ready_with self.old.replies keys.now) }
        ensures kept { set.is_subset self.old.replies.ready self.new.replies.ready ≡ true }
        ensures added { set.is_subset self.new.replies.ready (ready_with self.old.replies keys.now) ≡ true }
        ensures leases { self.new.leases ≡ self.old.leases }
    {
        self.replies.reserve(keys)
    }

    /// Puts a reply row under a ready key, which isn't ready then. It takes no memory.
    pub fn reply_insert(&mut self, key: Key, row: ReplyRow)
        requires { set.contains self.old.replies.ready key ≡ true }
        ensures rows { self.new.replies.rows ≡ map.insert self.old.replies.rows key row }
        ensures ready { self.new.replies.ready ≡ set.remove self.old.replies.ready key }
        ensures leases { self.new.leases ≡ self.old.leases }
    {
        self.replies.insert(key, row);
    }

    /// Removes the reply row of a key and gives it back. None where it has none. The key isn't ready for
    /// a reply row then, also where it was before.
    pub fn reply_remove(&mut self, key: &Key) -> Option<ReplyRow>
        ensures row { result ≡ map.get self.old.replies.rows key.now }
        ensures rows { self.new.replies.rows ≡ map.remove self.old.replies.rows key.now }
        ensures ready { self.new.replies.ready ≡ set.remove self.old.replies.ready key.now }
        ensures leases { self.new.leases ≡ self.old.leases }
    {
        self.replies.remove(key)
    }

    /// Puts a reply row in the place of the one that a key has, and gives that back. It takes no memory.
    pub fn reply_set(&mut self, key: &Key, row: ReplyRow) -> ReplyRow
        requires { map.contains_key self.old.replies.rows key.now ≡ true }
        ensures row { Some result ≡ map.get self.old.replies.rows key.now }
        ensures rows { self.new.replies.rows ≡ map.insert self.old.replies.rows key.now row }
        ensures ready { self.new.replies.ready ≡ self.old.replies.ready }
        ensures leases { self.new.leases ≡ self.old.leases }
    {
        self.replies.set(key, row)
    }

    /// Keeps this as the row of the client's last reply, under a key that has a row or is ready for one. No
    /// other key loses or gains readiness. It takes no memory.
    pub fn keep(&mut self, client: ClientNo, row: ReplyRow)
        requires { has_place self.old.replies (key.Reply client) ≡ true }
        ensures rows { self.new.replies.rows ≡ map.insert self.old.replies.rows (key.Reply client) row }
        ensures ready { set.remove self.new.replies.ready (key.Reply client)
            ≡ set.remove self.old.replies.ready (key.Reply client) }
        ensures leases { self.new.leases ≡ self.old.leases }
    {
        let key = Key::Reply(client);
        if self.replies.row(&key).is_some() {
            let _ = self.replies.set(&key, row);
        } else {
            self.replies.insert(key, row);
        }
    }
}
