//! The table of one kind of row.

ghost use Rattle.std.specs.Prelude.{◌≡◌, true, Some, option_copied, OnOk, IfOk};
ghost use Rattle.std.specs.FinMap as map;
ghost use Rattle.std.specs.FinSet as set;
ghost use Rattle.row_store.specs.Children.{child_count, IsChildren};
ghost use Rattle.row_store.specs.Table.{ready_with};

use crate::rows::Rows;
use hops_base::{InodeId, Key, Name, NoMemory};
use std::alloc::Global;
use std::marker::Model;

/// The rows of one kind by key, and the keys that are ready for one. Each kind of row has its table by an
/// alias of this one. This project's own.
#[derive(Drop)]
pub struct Table<R> {
    rows: Rows<R>,
}

impl<R> Model for Table<R> {
    ghost use Rattle.row_store.specs.Table as seen;

    ghost Value = { seen.Table R };

    ghost coded = { seen.coded_table R.code };

    ghost view = { λ t. t.rows };
}

impl<R> Table<R> {
    /// No rows, and no ready keys. The table keeps the allocator.
    pub fn new(alloc: Global) -> Result<Table<R>, NoMemory>
        ensures rows { IfOk result (λ table. table.rows ≡ map.empty) }
        ensures ready { IfOk result (λ table. table.ready ≡ set.empty) }
    {
        Ok(Table {
            rows: Rows::new(alloc)?,
        })
    }

    /// The row of a key. None where it has none, be it ready for one or not.
    pub fn row(&self, key: &Key) -> Option<&R>
        ensures { option_copied result ≡ map.get self.now.rows key.now }
    {
        self.rows.get(key)
    }

    /// How many rows stand below the parent.
    pub fn child_count(&self, parent: InodeId) -> u64
        ensures { result ≡ child_count self.now.rows parent }
    {
        self.rows.count(parent)
    }

    /// The names of the rows below the parent, rising by their bytes.
    pub fn children(&self, parent: InodeId) -> Result<Vec<Name>, NoMemory>
        ensures { IfOk result (λ names. IsChildren self.now.rows parent names.items) }
    {
        self.rows.children(parent)
    }

    /// Removes the row of a key and gives it back. None where it has none. The key isn't ready then, also
    /// where it was before.
    pub fn remove(&mut self, key: &Key) -> Option<R>
        ensures row { result ≡ map.get self.old.rows key.now }
        ensures rows { self.new.rows ≡ map.remove self.old.rows key.now }
        ensures ready { self.new.ready ≡ set.remove self.old.ready key.now }
    {
        self.rows.take(key)
    }

    /// Puts a row in the place of the one that a key has, and gives that back. It takes no memory.
    pub fn set(&mut self, key: &Key, row: R) -> R
        requires { map.contains_key self.old.rows key.now ≡ true }
        ensures row { Some result ≡ map.get self.old.rows key.now }
        ensures rows { self.new.rows ≡ map.insert self.old.rows key.now row }
        ensures ready { self.new.ready ≡ self.old.ready }
    {
        self.rows.replace(key, row)
    }
}

impl<R: Drop> Table<R> {
    /// Makes each of these keys ready that has no row. Keys that were ready stay so. Where memory runs
    /// out, some of the keys may have become ready, and no other key has.
    pub fn reserve(&mut self, keys: &[Key]) -> Result<(), NoMemory>
        ensures rows { self.new.rows ≡ self.old.rows }
        ensures ok { OnOk result (self.new.ready ≡ ready_with self.old keys.now) }
        ensures kept { set.is_subset self.old.ready self.new.ready ≡ true }
        ensures added { set.is_subset self.new.ready (ready_with self.old keys.now) ≡ true }
    {
        self.rows.reserve(keys)
    }

    /// Puts a row under a ready key, which isn't ready then. It takes no memory.
    pub fn insert(&mut self, key: Key, row: R)
        requires { set.contains self.old.ready key ≡ true }
        ensures rows { self.new.rows ≡ map.insert self.old.rows key row }
        ensures ready { self.new.ready ≡ set.remove self.old.ready key }
    {
        let _ = self.rows.put(key, row);
    }
}
