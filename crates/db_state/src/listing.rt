//! What is told of the rows under a row.

ghost use Rattle.std.specs.Prelude.{◌≡◌, IfOk, option_map};
ghost use Rattle.std.specs.FinMap as map;
ghost use Rattle.hops_base.specs.declared.key.Key.TheVariants as key;
ghost use Rattle.db_state.specs.Current.{listed_row, listed_under, status_of_kind};

use hops_base::{InodeId, Key, Name, NoMemory};
use inode_table::{Inode, InodeTable, Kind};
use name_space::{FileStatus, Listed, Listing};
use std::alloc::Global;

/// What is told of each row under this row, in the order of their names. It is empty exactly where there is
/// none, as under a file.
pub fn listing_of(alloc: Global, inodes: &InodeTable, parent: InodeId) -> Result<Listing, NoMemory>
    ensures { IfOk result (λ listing. listing.items ≡ listed_under inodes.now.rows parent) }
{
    let names = inodes.children(parent)?;
    let mut listing = Listing::new(alloc);
    for name in names {
        if let Some(listed) = listed_at(inodes, parent, name)? {
            listing.reserve(1)?;
            listing.push(listed);
        }
    }
    Ok(listing)
}

// What is told of the row of this name under a row. None where there is no such row.
fn listed_at(inodes: &InodeTable, parent: InodeId, name: Name) -> Result<Option<Listed>, NoMemory>
    ensures { IfOk result (λ listed. listed ≡ option_map (listed_row name) (map.get inodes.now.rows (key.Inode parent name))) }
{
    let key = Key::Inode(parent, name.copy()?);
    let Some(row) = inodes.row(&key) else {
        return Ok(None);
    };
    let status = status_of(row)?;
    Ok(Some(Listed { name, status }))
}

/// What is told of a row.
pub fn status_of(row: &Inode) -> Result<FileStatus, NoMemory>
    ensures { IfOk result (λ status. status ≡ status_of_kind row.now.kind row.now) }
{
    let owner = row.owner.copy()?;
    Ok(match row.kind {
        Kind::Dir => FileStatus::Dir {
            mode: row.mode,
            owner,
        },
        Kind::File => FileStatus::File {
            len: row.len,
            mode: row.mode,
            owner,
        },
    })
}
