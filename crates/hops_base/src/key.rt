//! The keys of all rows, in the one order in which they are locked.

ghost use Rattle.std.specs.Prelude.{◌≡◌, IfOk, refl};
ghost use Rattle.std.specs.Cmp.{eq_by_cmp_equiv, partial_equiv_from_equiv, partial_order_from_agreeing_total};
ghost use Rattle.std.specs.Ordering.{as_partial_cmp};
ghost use Rattle.hops_base.specs.Key.{key_cmp, same_key, table_of, number_of, inode_of, name_of, key_cmp_total};

use crate::ids::{ClientNo, InodeId, OpId};
use crate::memory::NoMemory;
use crate::name::Name;
use std::cmp::Ordering;

/// The key of a row, or of the gate that setters of subtree flags pass. Keys are ordered by table, in
/// the order of the variants, and then by their fields; names by their bytes. Every session locks its
/// keys in this order. This project's own.
#[derive(Debug, Drop)]
pub enum Key {
    /// The inode row below this parent with this name. The root's is below inode 0, named `root`.
    Inode(InodeId, Name),
    /// The quota row of a directory.
    Quota(InodeId),
    /// The lease row of a writer and its file.
    Lease(ClientNo, InodeId),
    /// The row that keeps a client's last reply.
    Reply(ClientNo),
    /// The row of a running subtree operation.
    Ongoing(OpId),
    /// The key under which subtree flags are set.
    Gate,
}

impl Key {
    /// The same key again.
    pub fn copy(&self) -> Result<Key, NoMemory>
        ensures { IfOk result (λ key. key ≡ self.now) }
    {
        match self {
            Key::Inode(parent, name) => Ok(Key::Inode(*parent, name.copy()?)),
            Key::Quota(id) => Ok(Key::Quota(*id)),
            Key::Lease(client, id) => Ok(Key::Lease(*client, *id)),
            Key::Reply(client) => Ok(Key::Reply(*client)),
            Key::Ongoing(op) => Ok(Key::Ongoing(*op)),
            Key::Gate => Ok(Key::Gate),
        }
    }

    // The place of its table in the order.
    fn table(&self) -> u8
        ensures { result ≡ table_of self.now }
    {
        match self {
            Key::Inode(..) => 0,
            Key::Quota(_) => 1,
            Key::Lease(..) => 2,
            Key::Reply(_) => 3,
            Key::Ongoing(_) => 4,
            Key::Gate => 5,
        }
    }

    // Its first number.
    fn number(&self) -> u64
        ensures { result ≡ number_of self.now }
    {
        match self {
            Key::Inode(id, _) | Key::Quota(id) => id.0,
            Key::Lease(client, _) | Key::Reply(client) => u64::from(client.0),
            Key::Ongoing(op) => op.0,
            Key::Gate => 0,
        }
    }

    // The inode that stands second in it.
    fn inode(&self) -> u64
        ensures { result ≡ inode_of self.now }
    {
        match self {
            Key::Lease(_, id) => id.0,
            Key::Inode(..) | Key::Quota(_) | Key::Reply(_) | Key::Ongoing(_) | Key::Gate => 0,
        }
    }

    // The text of its name.
    fn name(&self) -> &str
        ensures { result.now ≡ name_of self.now }
    {
        match self {
            Key::Inode(_, name) => name.text(),
            Key::Quota(_) | Key::Lease(..) | Key::Reply(_) | Key::Ongoing(_) | Key::Gate => "",
        }
    }
}

impl PartialEq for Key {
    ghost eq = { same_key };

    ghost laws = { partial_equiv_from_equiv (eq_by_cmp_equiv key_cmp_total) };

    fn eq(&self, other: &Key) -> bool {
        self.cmp(other) == Ordering::Equal
    }
}

impl Eq for Key {
    ghost laws = { eq_by_cmp_equiv key_cmp_total };
}

impl PartialOrd for Key {
    ghost partial_cmp = { as_partial_cmp key_cmp };

    ghost laws = { partial_order_from_agreeing_total key_cmp key_cmp_total (λ a b. refl) (λ a b. refl) };

    fn partial_cmp(&self, other: &Key) -> Option<Ordering> {
        Some(self.cmp(other))
    }
}

impl Ord for Key {
    ghost cmp = { key_cmp };

    ghost total = { key_cmp_total };

    ghost matches_partial_cmp = { λ a b. refl };

    ghost matches_eq = { λ a b. refl };

    #[tactic(auto, unfolding(crate::specs::Key::key_cmp))]
    fn cmp(&self, other: &Key) -> Ordering {
        self.table().cmp(&other.table()).then(
            self.number().cmp(&other.number()).then(
                self.inode()
                    .cmp(&other.inode())
                    .then(self.name().cmp(other.name())),
            ),
        )
    }
}
