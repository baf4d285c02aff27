//! What a commit writes.

ghost use Rattle.std.specs.Prelude.{◌≡◌, ◌+◌, ◌<◌, [], ◌∷◌, ◌++◌, false, length, max, OnOk, OnErr, option_copied, slice_get};
ghost use Rattle.std.specs.List.{list_any, IsDistinct};
ghost use Rattle.std.specs.Map.{keys_of};
ghost use Rattle.hops_base.specs.Key.{same_key};

use hops_base::{ItemList, Key, NoMemory};
use inode_table::Inode;
use quota_table::QuotaRow;
use std::alloc::Global;
use std::marker::Model;

/// A row of one of the tables.
#[derive(Debug, Drop)]
pub enum Row {
    Inode(Inode),
    Quota(QuotaRow),
}

/// Keys with their new rows, each key once; `None` removes the row of the key. It is seen as the list of
/// its pairs and its room.
#[derive(Debug, Drop)]
pub struct Writes {
    list: ItemList<(Key, Option<Row>)>,
}

impl Model for Writes {
    ghost use Rattle.std.specs.Prelude.{Option};
    ghost use Rattle.std.specs.List.{IsDistinct};
    ghost use Rattle.std.specs.Map.{keys_of};
    ghost use Rattle.hops_base.specs.declared.key.Key.{Key};
    ghost use Rattle.hops_base.specs.Key.{same_key};
    ghost use Rattle.hops_base.specs.Roomy.{Roomy};
    ghost use Rattle.db_state.specs.declared.writes.Row.{Row};

    ghost Value = { Roomy (Key × Option Row) };

    ghost view = { λ w. w.list };

    ghost invariant = { λ w. IsDistinct same_key (keys_of w.list.items) };
}

impl Writes {
    /// Nothing is written.
    pub fn new(alloc: Global) -> Writes
        ensures { result ≡ record { items = []; room = 0 } }
    {
        Writes {
            list: ItemList::new(alloc),
        }
    }

    /// Makes room for `n` rows more than there are. Want of memory changes nothing.
    pub fn reserve(&mut self, n: u64) -> Result<(), NoMemory>
        ensures ok { OnOk result (self.new ≡ record self.old { room = max self.old.room (length self.old.items + n) }) }
        ensures err { OnErr result (self.new ≡ self.old) }
    {
        self.list.reserve(n)
    }

    /// Adds a key that isn't there yet, with its new row or none.
    pub fn push(&mut self, item: (Key, Option<Row>))
        requires room { length self.old.items < self.old.room }
        requires new { list_any (same_key item.0) (keys_of self.old.items) ≡ false }
        ensures { self.new ≡ record self.old { items = self.old.items ++ item ∷ [] } }
    {
        self.list.push(item);
    }

    /// How many rows are written or removed.
    pub fn len(&self) -> u64
        ensures { result ≡ length self.now.items }
    {
        self.list.len()
    }

    /// The pair at place `i`, counted from 0. None exactly past the end.
    pub fn get(&self, i: u64) -> Option<&(Key, Option<Row>)>
        ensures { option_copied result ≡ slice_get self.now.items i }
    {
        self.list.get(i)
    }

    /// All pairs.
    pub fn as_slice(&self) -> &[(Key, Option<Row>)]
        ensures items { result.now ≡ self.now.items }
        ensures distinct { IsDistinct same_key (keys_of self.now.items) }
    {
        self.list.as_slice()
    }

    /// The pairs alone.
    pub fn into_vec(self) -> Vec<(Key, Option<Row>)>
        ensures { result.items ≡ self.items }
    {
        self.list.into_vec()
    }
}
