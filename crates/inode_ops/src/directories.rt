//! `mkdirs`.

ghost use Rattle.std.specs.Prelude.{◌≡◌, ◌+◌, ◌^◌, ◌<◌, ◌≤◌, length, IfOk};
ghost use Rattle.db_state.specs.NewDirs.{new_dirs};
ghost use Rattle.db_state.specs.Current.{SpellsPlace};
ghost use Rattle.inode_ops.specs.Outcomes.{CanMake, HasRoomUnlessFull};
ghost use Rattle.inode_ops.specs.Steps.{AnswersMkdirs, MakesMissing};

use crate::place::{deepest, is_whole};
use crate::quotas::{Change, first_full, recount};
use crate::told::{refused, told};
use db_state::{Outcome, Place, Row, Writes, new_dir};
use hops_base::{InodeId, Key, Name, NoMemory, User};
use inode_table::{Inode, Kind};
use name_space::{Exception, Reply};
use quota_table::QuotaRow;
use std::alloc::Global;

/// Makes the directory and those above it that are missing, where the quotas have room for them.
pub fn mkdirs(
    alloc: Global,
    place: &Place,
    quotas: &[(InodeId, QuotaRow)],
    next: InodeId,
    user: &User,
) -> Result<Outcome, NoMemory>
    requires spells { SpellsPlace place.now }
    requires room { CanMake place.now quotas.now next.0 }
    ensures { IfOk result (AnswersMkdirs place.now quotas.now next.0 user.now) }
{
    let whole = is_whole(place);
    let last = deepest(place);
    match (last.kind, whole) {
        (Kind::Dir, true) => told(alloc, Reply::Truth(true)),
        (Kind::Dir, false) => make_missing(alloc, last, place, quotas, next, user),
        (Kind::File, true) => refused(alloc, Exception::FileAlreadyExists),
        (Kind::File, false) => refused(alloc, Exception::ParentNotDirectory),
    }
}

// Makes the directories of the missing names below the last row found.
fn make_missing(
    alloc: Global,
    last: &Inode,
    place: &Place,
    quotas: &[(InodeId, QuotaRow)],
    next: InodeId,
    user: &User,
) -> Result<Outcome, NoMemory>
    requires some { 1 ≤ length place.now.found.items }
    requires within { length place.now.found.items ≤ length place.now.path }
    requires room { HasRoomUnlessFull last.now place.now quotas.now next.0 }
    ensures { IfOk result (MakesMissing last.now place.now quotas.now next.0 user.now) }
{
    let missing = &place.path.names()[place.found.len() as usize - 1..];
    let count = missing.len() as u64;
    if let Some(exception) = first_full(alloc, place, quotas, count)? {
        return refused(alloc, exception);
    }
    let mut writes = new_dirs(alloc, last.id, next, user, missing)?;
    let more = Change::More(count, 0);
    recount(&mut writes, place.found.as_slice(), quotas, more)?;
    Ok(Outcome::Answer(Reply::Truth(true), writes))
}

/// One new directory for each name, each below the one before.
pub fn new_dirs(
    alloc: Global,
    parent: InodeId,
    next: InodeId,
    user: &User,
    names: &[Name],
) -> Result<Writes, NoMemory>
    requires below { parent.0 < next.0 }
    requires ids { next.0 + length names.now < 2 ^ 64 }
    ensures { IfOk result (λ writes. writes.items ≡ new_dirs parent.0 next.0 user.now names.now) }
{
    let mut writes = Writes::new(alloc);
    writes.reserve(names.len() as u64)?;
    let mut parent = parent;
    let mut id = next;
    for name in names {
        let key = Key::Inode(parent, name.copy()?);
        writes.push((key, Some(Row::Inode(new_dir(id, user.copy()?)))));
        parent = id;
        id = InodeId(id.0 + 1);
    }
    Ok(writes)
}
