//! The rows.

ghost use Rattle.std.specs.Prelude.{◌≡◌, ◌∷◌, [], true, Some, option_copied, OnOk, OnErr, IfOk};
ghost use Rattle.std.specs.FinMap as map;
ghost use Rattle.std.specs.FinSet as set;
ghost use Rattle.row_store.specs.Children.{child_count, IsChildren};
ghost use Rattle.row_store.specs.Table.{has_place, ready_with};

use crate::children::{count_below, names_below};
use crate::slots::{Slot, add, clear, fill, has_slot, row_of};
use hops_base::{InodeId, Key, Name, NoMemory};
use std::alloc::Global;
use std::marker::Model;

/// Rows by key, and the keys that are ready for one. A row goes under a ready key without memory, so that
/// a change that was begun is never left half done. It is seen as a finite map and a finite set, whatever
/// it keeps them in. This project's own.
#[derive(Drop)]
pub struct Rows<R> {
    slots: Vec<Slot<R>>,
}

impl<R> Model for Rows<R> {
    ghost use Rattle.std.specs.FinMap as map;
    ghost use Rattle.std.specs.FinSet as set;
    ghost use Rattle.std.specs.List.{IsDistinct};
    ghost use Rattle.std.specs.Map.{keys_of};
    ghost use Rattle.hops_base.specs.Key.{key_cmp, same_key};
    ghost use Rattle.row_store.specs.Table.{Table, coded_table};
    ghost use Rattle.row_store.specs.Slots.{rows_in, ready_in};

    ghost Value = { Table R };

    ghost coded = { coded_table R.code };

    ghost view = { λ t. record { rows = map.from_entries (rows_in t.slots.items); ready = set.from_list (ready_in t.slots.items) } };

    ghost invariant = { λ t. IsDistinct same_key (keys_of t.slots.items) };
}

impl<R> Rows<R> {
    /// No rows, and no ready keys. The rows keep the allocator.
    pub fn new(alloc: Global) -> Result<Rows<R>, NoMemory>
        ensures rows { IfOk result (λ rows. rows.rows ≡ map.empty) }
        ensures ready { IfOk result (λ rows. rows.ready ≡ set.empty) }
    {
        Ok(Rows {
            slots: Vec::new(alloc),
        })
    }

    /// The row of a key. None where it has no row, be it ready for one or not.
    pub fn get(&self, key: &Key) -> Option<&R>
        ensures { option_copied result ≡ map.get self.now.rows key.now }
    {
        row_of(&self.slots, key)
    }

    /// How many inode rows stand below the parent. Keys that are only ready don't count.
    pub fn count(&self, parent: InodeId) -> u64
        ensures { result ≡ child_count self.now.rows parent }
    {
        count_below(&self.slots, parent) as u64
    }

    /// The names of the inode rows below the parent, rising by their bytes.
    pub fn children(&self, parent: InodeId) -> Result<Vec<Name>, NoMemory>
        ensures { IfOk result (λ names. IsChildren self.now.rows parent names.items) }
    {
        names_below(*self.slots.allocator(), &self.slots, parent)
    }

    /// Puts a row under a key that has one or is ready, and gives back the one that it had. It takes no
    /// memory.
    pub fn put(&mut self, key: Key, row: R) -> Option<R>
        requires { has_place self.old key ≡ true }
        ensures row { result ≡ map.get self.old.rows key }
        ensures rows { self.new.rows ≡ map.insert self.old.rows key row }
        ensures ready { self.new.ready ≡ set.remove self.old.ready key }
    {
        fill(&mut self.slots, &key, row)
    }

    /// Puts a row in the place of the one that a key has, and gives that back. It takes no memory.
    pub fn replace(&mut self, key: &Key, row: R) -> R
        requires { map.contains_key self.old.rows key.now ≡ true }
        ensures row { Some result ≡ map.get self.old.rows key.now }
        ensures rows { self.new.rows ≡ map.insert self.old.rows key.now row }
        ensures ready { self.new.ready ≡ self.old.ready }
    {
        match fill(&mut self.slots, key, row) {
            Some(old) => old,
            None => unreachable!(),
        }
    }

    /// Removes the row of a key and gives it back. None where it has no row. The key isn't ready then,
    /// also where it was before.
    pub fn take(&mut self, key: &Key) -> Option<R>
        ensures row { result ≡ map.get self.old.rows key.now }
        ensures rows { self.new.rows ≡ map.remove self.old.rows key.now }
        ensures ready { self.new.ready ≡ set.remove self.old.ready key.now }
    {
        clear(&mut self.slots, key)
    }
}

impl<R: Drop> Rows<R> {
    /// Makes each of these keys ready that has no row. Keys that were ready stay so. Where memory runs
    /// out, some of the keys may have become ready, and no other key has.
    pub fn reserve(&mut self, keys: &[Key]) -> Result<(), NoMemory>
        ensures rows { self.new.rows ≡ self.old.rows }
        ensures ok { OnOk result (self.new.ready ≡ ready_with self.old keys.now) }
        ensures kept { set.is_subset self.old.ready self.new.ready ≡ true }
        ensures added { set.is_subset self.new.ready (ready_with self.old keys.now) ≡ true }
    {
        for key in keys {
            self.reserve_one(key)?;
        }
        Ok(())
    }

    // Makes the key ready if it has no row.
    fn reserve_one(&mut self, key: &Key) -> Result<(), NoMemory>
        ensures rows { self.new.rows ≡ self.old.rows }
        ensures ok { OnOk result (self.new.ready ≡ ready_with self.old (key.now ∷ [])) }
        ensures err { OnErr result (self.new.ready ≡ self.old.ready) }
    {
        if has_slot(&self.slots, key) {
            return Ok(());
        }
        add(&mut self.slots, key)
    }
}
