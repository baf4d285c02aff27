//! The table of locks.

ghost use Rattle.std.specs.Prelude.{◌≡◌, ◌++◌, ◌∷◌, [], None, Some, IfOk, OnOk, OnErr, if◌then◌else◌};
ghost use Rattle.std.specs.FinMap as map;
ghost use Rattle.std.specs.List.{list_any};
ghost use Rattle.hops_base.specs.Key.{key_cmp, same_key};
ghost use Rattle.row_locks.specs.Holders.{without};
ghost use Rattle.row_locks.specs.Lists.{items_at, IsLists};
ghost use Rattle.row_locks.specs.Locks.{IsAsked, IsConflict, IsGivenBack, mode_of};

use crate::ask::Ask;
use crate::holders::{Holder, drop_session, least_in_the_way, mode_in};
use crate::lists::{add_at, drop_last_at, items_at, take_at};
use hops_base::{Key, Mode, NoMemory, SessionId};
use std::alloc::Global;
use std::collections::BTreeMap;
use std::marker::Model;

/// The locks that sessions hold. It is seen as a finite map from sessions and keys to modes, whatever the
/// order in which they were taken. This project's own.
#[derive(Drop)]
pub struct LockTable {
    alloc: Global,
    holders: BTreeMap<Key, Vec<Holder>>,
    keys: BTreeMap<SessionId, Vec<Key>>,
}

impl Model for LockTable {
    ghost use Rattle.std.specs.FinMap as map;
    ghost use Rattle.row_locks.specs.Locks.{Locks, coded_locks};
    ghost use Rattle.row_locks.specs.Kept.{locks_in, AreKept};

    ghost Value = { Locks };

    ghost coded = { coded_locks };

    ghost view = { λ t. map.from_entries (locks_in t.holders.entries) };

    ghost invariant = { λ t. AreKept t.holders t.keys };
}

impl LockTable {
    /// No locks. The table keeps the allocator.
    pub fn new(alloc: Global) -> Result<LockTable, NoMemory>
        ensures { IfOk result (λ table. table ≡ map.empty) }
    {
        Ok(LockTable {
            alloc,
            holders: BTreeMap::new(alloc),
            keys: BTreeMap::new(alloc),
        })
    }

    /// Asks for a lock on a key that the session doesn't hold. It looks at the holders of that key alone,
    /// and takes all memory before a lock is seen: want of memory changes nothing.
    pub fn ask(&mut self, s: SessionId, key: &Key, mode: Mode) -> Ask
        requires { mode_of self.old s key.now ≡ None }
        ensures { IsAsked self.old s key.now mode result self.new }
    {
        if let Some(other) = self.conflict(s, key, mode) {
            return Ask::Busy(other);
        }
        match self.take(s, key, mode) {
            Ok(()) => Ask::Held,
            Err(_) => Ask::NoMemory,
        }
    }

    /// The least other session that holds the key in a mode which conflicts with this one. None exactly
    /// where there is none. It looks at the holders of the key alone, and takes no memory.
    pub fn conflict(&self, s: SessionId, key: &Key, mode: Mode) -> Option<SessionId>
        ensures { IsConflict self.now s key.now mode result }
    {
        least_in_the_way(items_at(&self.holders, key), s, mode)
    }

    /// The mode in which the session holds the key. None exactly where it doesn't hold it. It looks at the
    /// holders of the key alone, and takes no memory.
    pub fn holds(&self, s: SessionId, key: &Key) -> Option<Mode>
        ensures { result ≡ mode_of self.now s key.now }
    {
        mode_in(items_at(&self.holders, key), s)
    }

    /// Takes away all locks of the session, and no other. It looks at the keys of the session alone, and
    /// takes no memory.
    pub fn give_all(&mut self, s: SessionId)
        ensures { IsGivenBack s self.old self.new }
    {
        if let Some(keys) = take_at(&mut self.keys, &s) {
            drop_holders(&mut self.holders, &keys, s);
        }
    }

    // Takes the lock, where nobody is in the way. The session's own list comes first, which isn't seen.
    fn take(&mut self, s: SessionId, key: &Key, mode: Mode) -> Result<(), NoMemory>
        requires { mode_of self.old s key.now ≡ None }
        ensures ok { OnOk result (self.new ≡ map.insert self.old (s.0, key.now) mode) }
        ensures err { OnErr result (self.new ≡ self.old) }
    {
        let kept = key.copy()?;
        add_at(self.alloc, &mut self.keys, s, key.copy()?)?;
        let holder = Holder { session: s, mode };
        if let Err(error) = add_at(self.alloc, &mut self.holders, kept, holder) {
            drop_last_at(&mut self.keys, &s);
            return Err(error);
        }
        Ok(())
    }
}

// Takes the session out of the holders of each of these keys.
fn drop_holders(holders: &mut BTreeMap<Key, Vec<Holder>>, keys: &[Key], s: SessionId)
    requires { IsLists key_cmp holders.old }
    ensures lists { IsLists key_cmp holders.new }
    ensures items { (q : Key) → items_at key_cmp holders.new q
        ≡ (if list_any (same_key q) keys.now then without (items_at key_cmp holders.old q) s else items_at key_cmp holders.old q) }
{
    for key in keys {
        drop_holder(holders, key, s);
    }
}

// Takes the session out of the holders of a key.
#[tactic(auto, using(hops_base::specs::Key::key_cmp_total))]
fn drop_holder(holders: &mut BTreeMap<Key, Vec<Holder>>, key: &Key, s: SessionId)
    requires { IsLists key_cmp holders.old }
    ensures lists { IsLists key_cmp holders.new }
    ensures items { (q : Key) → items_at key_cmp holders.new q
        ≡ (if same_key key.now q then without (items_at key_cmp holders.old q) s else items_at key_cmp holders.old q) }
{
    let Some(list) = holders.get_mut(key) else {
        return;
    };
    drop_session(list, s);
    if list.is_empty() {
        let _ = holders.remove(key);
    }
}
