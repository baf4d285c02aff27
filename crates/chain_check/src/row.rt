//! One row that is read again.

ghost use Rattle.std.specs.Prelude.{IsTrue, ◌↔◌};
ghost use Rattle.chain_check.specs.Rows.{IsReadAgain};
ghost use Rattle.db_state.specs.ReadSteps.{SameRow};

use db_state::Db;
use hops_base::{Key, OpId};
use inode_table::Inode;

/// Why a session can't go on past a row.
#[derive(Clone, Copy, Debug)]
pub(crate) enum Halt {
    /// It isn't there, or isn't as it was found.
    Changed,
    /// It bears the flag of another's operation.
    Flagged(OpId),
}

/// Reads a row again.
pub(crate) fn read_again(db: &Db, found: &(Key, Inode)) -> Result<(), Halt>
    ensures { IsReadAgain db.now.stored.inodes found.now result }
{
    let Some(now) = db.inode(&found.0) else {
        return Err(Halt::Changed);
    };
    if !is_same(&found.1, now) {
        return Err(Halt::Changed);
    }
    match now.flag {
        Some(op) => Err(Halt::Flagged(op)),
        None => Ok(()),
    }
}

/// Whether a row is as it was found: none of what is compared differs, its id, its kind, its writer and whether it has a quota. It
/// takes no memory.
pub fn is_same(found: &Inode, now: &Inode) -> bool
    ensures { IsTrue result ↔ SameRow found.now now.now }
{
    now.id == found.id
        && now.kind == found.kind
        && now.writer == found.writer
        && now.has_quota == found.has_quota
}
