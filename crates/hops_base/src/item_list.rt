//! Lists that take memory in one call alone.

ghost use Rattle.std.specs.Prelude.{◌≡◌, ◌+◌, ◌<◌, ◌≤◌, [], ◌∷◌, ◌++◌, length, max, IfOk, OnOk, OnErr, option_copied, slice_get};

use crate::ids::{InodeId, NodeNo};
use crate::memory::NoMemory;
use crate::path::Path;
use crate::user::User;
use std::alloc::Global;
use std::marker::Model;

/// A list of items and its room: how many items it may have before it must be given room anew. `reserve`
/// alone takes memory.
#[derive(Debug, Drop)]
pub struct ItemList<T> {
    list: Vec<T>,
    room: usize,
}

impl<T> Model for ItemList<T> {
    ghost use Rattle.std.specs.Prelude.{◌≤◌, length};
    ghost use Rattle.std.specs.Vec.{vec_capacity};
    ghost use Rattle.hops_base.specs.Roomy.{Roomy, coded_roomy};

    ghost Value = { Roomy T };

    ghost coded = { coded_roomy T.code };

    ghost view = { λ l. record { items = l.list.items; room = l.room } };

    ghost invariant = { λ l. (length l.list.items ≤ l.room) × (l.room ≤ vec_capacity l.list) };
}

impl<T> ItemList<T> {
    /// The empty list, without room.
    pub fn new(alloc: Global) -> ItemList<T>
        ensures { result ≡ record { items = []; room = 0 } }
    {
        ItemList {
            list: Vec::new(alloc),
            room: 0,
        }
    }

    /// An empty list with as much room as this one.
    pub fn empty_like(&self) -> Result<ItemList<T>, NoMemory>
        ensures { IfOk result (λ list. list ≡ record { items = []; room = self.now.room }) }
    {
        match Vec::with_capacity(*self.list.allocator(), self.room) {
            Ok(list) => Ok(ItemList {
                list,
                room: self.room,
            }),
            Err(_) => Err(NoMemory),
        }
    }

    /// The list of these items, without room for more. It takes no memory.
    pub fn from_vec(list: Vec<T>) -> ItemList<T>
        ensures { result ≡ record { items = list.items; room = length list.items } }
    {
        let room = list.len();
        ItemList { list, room }
    }

    /// How many items it has.
    pub fn len(&self) -> u64
        ensures { result ≡ length self.now.items }
    {
        self.list.len() as u64
    }

    /// The item at place `i`, counted from 0. None exactly past the end.
    pub fn get(&self, i: u64) -> Option<&T>
        ensures { option_copied result ≡ slice_get self.now.items i }
    {
        self.list.get(i as usize)
    }

    /// All items.
    pub fn as_slice(&self) -> &[T]
        ensures items { result.now ≡ self.now.items }
        ensures room { length self.now.items ≤ self.now.room }
    {
        &self.list
    }

    /// The items alone.
    pub fn into_vec(self) -> Vec<T>
        ensures { result.items ≡ self.items }
    {
        self.list
    }

    /// Makes room for `n` items more than there are. Want of memory changes nothing.
    pub fn reserve(&mut self, n: u64) -> Result<(), NoMemory>
        ensures ok { OnOk result (self.new ≡ record self.old { room = max self.old.room (length self.old.items + n) }) }
        ensures err { OnErr result (self.new ≡ self.old) }
    {
        let wanted = self.list.len().checked_add(n as usize).ok_or(NoMemory)?;
        self.list.reserve(n as usize)?;
        self.room = self.room.max(wanted);
        Ok(())
    }

    /// Adds an item at the end.
    pub fn push(&mut self, item: T)
        requires { length self.old.items < self.old.room }
        ensures { self.new ≡ record self.old { items = self.old.items ++ item ∷ [] } }
    {
        match self.list.push(item) {
            Ok(()) => {}
            Err(_) => unreachable!(),
        }
    }
}

/// Inode ids.
pub type IdList = ItemList<InodeId>;

/// Paths.
pub type PathList = ItemList<Path>;

/// Users.
pub type UserList = ItemList<User>;

/// Stops: a namenode, and the number of its commits after which it stops.
pub type StopList = ItemList<(NodeNo, u32)>;
