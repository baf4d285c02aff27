//! `create`.

ghost use Rattle.std.specs.Prelude.{◌≡◌, ◌+◌, ◌^◌, ◌<◌, ◌≤◌, length, IfOk};
ghost use Rattle.name_space.specs.declared.call.Call.TheVariants as call;
ghost use Rattle.db_state.specs.Current.{SpellsPlace};
ghost use Rattle.db_state.specs.Effects.{KeepsOthers};
ghost use Rattle.db_state.specs.Locked.{WritesOwn};
ghost use Rattle.inode_ops.specs.NewFile.{file_row, new_file_rows, last_dir};
ghost use Rattle.inode_ops.specs.CreateSteps.{overwritten, AnswersCreate, MakesFile, Overwrites};
ghost use Rattle.inode_ops.specs.Outcomes.{IsViewOf, CanMake, HasRoomUnlessFull};
ghost use Rattle.db_state.specs.CallsTable.{IsCallsTable};

use crate::directories::new_dirs;
use crate::place::{deepest, is_whole, last_found, only_place};
use crate::quotas::{Change, first_full, recount};
use crate::told::refused;
use db_state::{Outcome, Place, Row, View, Writes};
use hops_base::{ClientNo, InodeId, Key, Name, NoMemory, Path, User};
use inode_table::{Inode, Kind};
use name_space::{Exception, FILE_MODE, Reply};
use std::alloc::Global;

/// Makes a new file that this client writes, and the directories above it that are missing. A file that is there is
/// overwritten where that is asked.
pub fn create(
    alloc: Global,
    view: &View,
    client: ClientNo,
    user: &User,
    path: &Path,
    overwrite: bool,
) -> Result<Outcome, NoMemory>
    requires { IsViewOf view.now (call.Create path.now overwrite) }
    ensures table { IfOk result (IsCallsTable view.now client user.now (call.Create path.now overwrite)) }
    ensures own { IfOk result (WritesOwn view.now client (call.Create path.now overwrite)) }
    ensures keeps { IfOk result (KeepsOthers view.now client (call.Create path.now overwrite)) }
{
    let place = only_place(view);
    create_at(alloc, view, place, client, user, overwrite)
}

fn create_at(
    alloc: Global,
    view: &View,
    place: &Place,
    client: ClientNo,
    user: &User,
    overwrite: bool,
) -> Result<Outcome, NoMemory>
    requires spells { SpellsPlace place.now }
    requires room { CanMake place.now view.now.quotas.items view.now.next.0 }
    ensures { IfOk result (AnswersCreate place.now view.now client user.now overwrite) }
{
    let whole = is_whole(place);
    let last = deepest(place);
    match (last.kind, whole) {
        (Kind::Dir, true) => refused(alloc, Exception::FileAlreadyExists),
        (Kind::Dir, false) => make_file(alloc, view, place, last, client, user),
        (Kind::File, true) if overwrite => overwrite_file(alloc, view, place, client, user),
        (Kind::File, true) => refused(alloc, Exception::FileAlreadyExists),
        (Kind::File, false) => refused(alloc, Exception::ParentNotDirectory),
    }
}

// Makes a file of the last of the missing names, and directories of the others.
fn make_file(
    alloc: Global,
    view: &View,
    place: &Place,
    last: &Inode,
    client: ClientNo,
    user: &User,
) -> Result<Outcome, NoMemory>
    requires some { 1 ≤ length place.now.found.items }
    requires part { length place.now.found.items ≤ length place.now.path }
    requires room { HasRoomUnlessFull last.now place.now view.now.quotas.items view.now.next.0 }
    ensures { IfOk result (MakesFile last.now place.now view.now client user.now) }
{
    let missing = &place.path.names()[place.found.len() as usize - 1..];
    let count = missing.len() as u64;
    let quotas = view.quotas.as_slice();
    if let Some(exception) = first_full(alloc, place, quotas, count)? {
        return refused(alloc, exception);
    }
    let Some((name, above)) = missing.split_last() else {
        unreachable!()
    };
    let mut writes = new_file_rows(alloc, last.id, view.next, user, above, name, client)?;
    let more = Change::More(count, 0);
    recount(&mut writes, place.found.as_slice(), quotas, more)?;
    Ok(Outcome::Answer(Reply::Truth(true), writes))
}

// The rows of new directories, each below the one before, and of a new file below them.
fn new_file_rows(
    alloc: Global,
    parent: InodeId,
    next: InodeId,
    user: &User,
    above: &[Name],
    name: &Name,
    client: ClientNo,
) -> Result<Writes, NoMemory>
    requires below { parent.0 < next.0 }
    requires ids { next.0 + length above.now + 1 < 2 ^ 64 }
    ensures { IfOk result (λ writes. writes.items ≡ new_file_rows parent.0 next.0 user.now above.now name.now client) }
{
    let mut writes = new_dirs(alloc, parent, next, user, above)?;
    writes.reserve(1)?;
    let key = Key::Inode(last_dir(parent, next, above), name.copy()?);
    let file = new_file(InodeId(next.0 + above.len() as u64), client, user)?;
    writes.push((key, Some(Row::Inode(file))));
    Ok(writes)
}

// The id of the last of the new directories, or of the parent where there are none.
fn last_dir(parent: InodeId, next: InodeId, names: &[Name]) -> InodeId
    requires { next.0 + length names.now < 2 ^ 64 }
    ensures { result.0 ≡ last_dir parent.0 next.0 names.now }
{
    let count = names.len() as u64;
    if count == 0 {
        return parent;
    }
    InodeId(next.0 + (count - 1))
}

fn new_file(id: InodeId, client: ClientNo, user: &User) -> Result<Inode, NoMemory>
    ensures { IfOk result (λ inode. inode ≡ file_row id.0 client user.now) }
{
    Ok(Inode {
        id,
        kind: Kind::File,
        len: 0,
        writer: Some(client),
        mode: FILE_MODE,
        owner: user.copy()?,
        has_quota: false,
        flag: None,
    })
}

// Makes the file empty and this client its writer.
fn overwrite_file(
    alloc: Global,
    view: &View,
    place: &Place,
    client: ClientNo,
    user: &User,
) -> Result<Outcome, NoMemory>
    requires some { 1 ≤ length place.now.found.items }
    requires spells { SpellsPlace place.now }
    ensures { IfOk result (Overwrites place.now view.now client user.now) }
{
    let (key, file) = last_found(place);
    let mut writes = Writes::new(alloc);
    writes.reserve(1)?;
    let row = overwritten(file, client, user)?;
    writes.push((key.copy()?, Some(Row::Inode(row))));
    let quotas = view.quotas.as_slice();
    let less = Change::Less(0, file.len);
    recount(&mut writes, place.found.as_slice(), quotas, less)?;
    Ok(Outcome::Answer(Reply::Truth(true), writes))
}

fn overwritten(file: &Inode, client: ClientNo, user: &User) -> Result<Inode, NoMemory>
    ensures { IfOk result (λ inode. inode ≡ overwritten client user.now file.now) }
{
    let mut file = file.copy()?;
    file.len = 0;
    file.writer = Some(client);
    file.mode = FILE_MODE;
    file.owner = user.copy()?;
    Ok(file)
}
