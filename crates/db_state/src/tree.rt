//! The namespace that the rows spell.

ghost use Rattle.std.specs.Prelude.{◌≡◌, ◌++◌, IfOk, OnOk, option_copied, reverse, map};
ghost use Rattle.row_store.specs.Children.{child_names};
ghost use Rattle.commit_log.specs.Legal.{space};
ghost use Rattle.db_state.specs.Stands.{entry_of_kind};
ghost use Rattle.db_state.specs.Walk.{step_to};

use crate::db::Db;
use hops_base::{InodeId, ItemList, Key, NoMemory, Path};
use inode_table::{Inode, Kind};
use name_space::Entry;
use quota_table::QuotaRow;
use std::alloc::Global;

/// The namespace in path order, `/` first, walked over the rows.
pub fn tree_of(alloc: Global, db: &Db) -> Result<ItemList<(Path, Entry)>, NoMemory>
    ensures { IfOk result (λ tree. tree.items ≡ space db.now.stored.settings.users db.now.stored.notes) }
{
    db.core();
    let mut tree = ItemList::new(alloc);
    let mut pending = Vec::new(alloc);
    pending.push((Path::root(alloc), db.root_key().copy()?))?;
    while let Some((path, key)) = pending.pop() {
        let Some(row) = db.inode(&key) else {
            unreachable!();
        };
        let entry = make_entry(row, db.quota(row.id))?;
        add_children(db, row.id, &path, &mut pending)?;
        tree.reserve(1)?;
        tree.push((path, entry));
    }
    Ok(tree)
}

// The children are pushed from the last to the first, so that they are popped in their order. A file has none.
fn add_children(
    db: &Db,
    parent: InodeId,
    path: &Path,
    pending: &mut Vec<(Path, Key)>,
) -> Result<(), NoMemory>
    ensures { OnOk result (pending.new.items ≡ pending.old.items ++ reverse (map (step_to path.now parent) (child_names db.now.stored.inodes parent))) }
{
    let mut names = db.children(parent)?;
    while let Some(name) = names.pop() {
        pending.push((path.with(&name)?, Key::Inode(parent, name)))?;
    }
    Ok(())
}

// The entry that a row stands for, where this is its quota row.
fn make_entry(row: &Inode, quota: Option<&QuotaRow>) -> Result<Entry, NoMemory>
    ensures { IfOk result (λ entry. entry ≡ entry_of_kind row.now.kind row.now (option_copied quota.entry)) }
{
    let owner = row.owner.copy()?;
    let (max_names, max_bytes) = match quota {
        Some(quota) => (quota.max_names, quota.max_bytes),
        None => (None, None),
    };
    Ok(match row.kind {
        Kind::Dir => Entry::Dir {
            mode: row.mode,
            owner,
            max_names,
            max_bytes,
        },
        Kind::File => Entry::File {
            len: row.len,
            writer: row.writer,
            mode: row.mode,
            owner,
        },
    })
}
