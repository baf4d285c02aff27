//! The next read of a session that resolves a path.

ghost use Rattle.std.specs.Prelude.{◌≡◌, ◌≤◌, ◌<◌, Some, List, [], ◌∷◌, length, IfOk, option_copied};
ghost use Rattle.std.specs.FinMap as map;
ghost use Rattle.hops_base.specs.declared.key.Key.{Key};
ghost use Rattle.inode_table.specs.declared.inode.Inode.{Inode};
ghost use Rattle.name_space.specs.Call.{paths_of};
ghost use Rattle.name_space.specs.Namespace.{Path};
ghost use Rattle.db_state.specs.ReadSteps.{IsOfPath};
ghost use Rattle.db_state.specs.Stored.{root_key, root_row};
ghost use Rattle.path_resolver.specs.Resolving.{begun, counted_for, next_read, IsUnresolved};
ghost use Rattle.path_resolver.specs.Stepping.{rows_after, since_by, AreLists, IsBegun, IsEnd, IsLook, IsStepBy};
ghost use Rattle.path_resolver.specs.Ways.{rows_of, IsWay};

use crate::keys::plan_of;
use crate::step::{End, Lists, Look, Step};
use crate::trail::trail_of;
use crate::way::Way;
use db_state::{Db, FoundList, PlaceList, Session, Stage};
use hops_base::{ItemList, Key, NoMemory, Path};
use inode_table::Inode;
use name_space::Call;
use std::alloc::Global;

/// Looks for the next row of the path that a session resolves, and makes a step of what it gives.
pub fn step_of(alloc: Global, db: &Db, doing: &Session) -> Result<Step, NoMemory>
    requires root { map.get db.now.stored.inodes root_key ≡ Some root_row }
    requires resolves { (path : Path) × (found : List (Key × Inode)) × IsUnresolved doing.now path found }
    ensures { IfOk result (λ step. IsStepBy db.now.stored doing.now step) }
{
    let path = path_of(&doing.call);
    let found = found_by(doing);
    let begun = begun_lists(alloc, db, path, found)?;
    let rows = rows_in(&begun, found);
    let look = look(db, path, rows)?;
    let end = end_of(alloc, doing, &way_after(path, rows, &look))?;
    Ok(Step {
        since: since_by(db, doing, found),
        reads: reads_by(path, doing.reads),
        begun,
        look,
        end,
    })
}

// The one path of a call.
fn path_of(call: &Call) -> &Path
    requires { IsOfPath call.now }
    ensures { paths_of call.now ≡ result.now ∷ [] }
{
    match call {
        Call::Mkdirs(path)
        | Call::Create(path, _)
        | Call::Append(path)
        | Call::Grow(path, _)
        | Call::Close(path)
        | Call::Stat(path)
        | Call::List(path)
        | Call::Delete(path, _)
        | Call::Chmod(path, _)
        | Call::SetQuota(path, _, _)
        | Call::Usage(path) => path,
        Call::Rename(..) => unreachable!(),
    }
}

// The rows found so far.
fn found_by(doing: &Session) -> &FoundList
    requires { (path : Path) × (found : List (Key × Inode)) × IsUnresolved doing.now path found }
    ensures { (path : Path) (found : List (Key × Inode)) → IsUnresolved doing.now path found → result.now.items ≡ found }
{
    let Stage::Resolve(_, found) = &doing.stage else {
        unreachable!()
    };
    found
}

// Lists for the path, with the root's row, where no row was found yet.
fn begun_lists(
    alloc: Global,
    db: &Db,
    path: &Path,
    found: &FoundList,
) -> Result<Option<Lists>, NoMemory>
    requires { map.get db.now.stored.inodes root_key ≡ Some root_row }
    ensures { IfOk result (λ lists. IsBegun path.now found.now.items lists) }
{
    if found.len() > 0 {
        return Ok(None);
    }
    Ok(Some(begin(alloc, db, path)?))
}

// Lists for the path, with the root's row.
fn begin(alloc: Global, db: &Db, path: &Path) -> Result<Lists, NoMemory>
    requires { map.get db.now.stored.inodes root_key ≡ Some root_row }
    ensures { IfOk result (λ lists. AreLists path.now lists) }
{
    let Some(row) = db.inode(db.root_key()) else {
        unreachable!()
    };
    let mut places: PlaceList = ItemList::new(alloc);
    places.reserve(1)?;
    let mut found: FoundList = ItemList::new(alloc);
    found.reserve(path.names().len() as u64 + 1)?;
    found.push((db.root_key().copy()?, row.copy()?));
    Ok(Lists { places, found })
}

// The rows found so far, the root's among them.
fn rows_in<'a>(lists: &'a Option<Lists>, found: &'a FoundList) -> &'a [(Key, Inode)]
    requires { (path : Path) × IsBegun path found.now.items lists.now }
    ensures { result.now ≡ begun found.now.items }
{
    match lists {
        Some(lists) => lists.found.as_slice(),
        None => found.as_slice(),
    }
}

// Looks for the row of the next name below the last of these rows.
fn look(db: &Db, path: &Path, rows: &[(Key, Inode)]) -> Result<Look, NoMemory>
    requires { 0 < length rows.now }
    ensures { IfOk result (λ look. IsLook db.now.stored.inodes (next_read path.now rows.now) look) }
{
    let Some(key) = way_to(path, rows, &None).next_key()? else {
        return Ok(Look {
            row: None,
            missing: None,
        });
    };
    let Some(row) = db.inode(&key) else {
        return Ok(Look {
            row: None,
            missing: Some(key),
        });
    };
    let row = row.copy()?;
    Ok(Look {
        row: Some((key, row)),
        missing: None,
    })
}

// These rows as the way along a path.
fn way_to<'a>(path: &'a Path, rows: &'a [(Key, Inode)], missing: &'a Option<Key>) -> Way<'a>
    requires { 0 < length rows.now }
    ensures { IsWay path.now rows.now missing.now result }
{
    let [above @ .., last] = rows else {
        unreachable!()
    };
    Way {
        path,
        above,
        last,
        missing: missing.as_ref(),
    }
}

// These rows, and what one more look gave, as the way along a path.
fn way_after<'a>(path: &'a Path, rows: &'a [(Key, Inode)], look: &'a Look) -> Way<'a>
    requires { 0 < length rows.now }
    ensures { IsWay path.now (rows_after rows.now look.now.row) look.now.missing result }
{
    match &look.row {
        Some(last) => Way {
            path,
            above: rows,
            last,
            missing: look.missing.as_ref(),
        },
        None => way_to(path, rows, &look.missing),
    }
}

// With what a resolution ends that has come this way. None where more is to be read.
fn end_of(alloc: Global, doing: &Session, way: &Way) -> Result<Option<End>, NoMemory>
    requires { IsOfPath doing.now.call }
    ensures { IfOk result (λ end. IsEnd doing.now way.now.path.now (rows_of way.now) (option_copied way.now.missing) end) }
{
    if way.missing.is_none() && way.next_name().is_some() {
        return Ok(None);
    }
    Ok(Some(End {
        path: way.path.copy()?,
        plan: plan_of(alloc, doing.client, &doing.call, way)?,
        trail: trail_of(alloc, way)?,
    }))
}

// How long the book was just before the first read of the attempt.
fn since_by(db: &Db, doing: &Session, found: &FoundList) -> u64
    ensures { result ≡ since_by db.now.stored doing.now found.now.items }
{
    if found.len() <= 1 {
        db.book().len()
    } else {
        doing.since
    }
}

// The count of reads after the next one: the path `/` needs none.
fn reads_by(path: &Path, reads: u64) -> u64
    ensures { result ≡ counted_for path.now reads }
{
    if path.len() == 0 {
        return reads;
    }
    reads.saturating_add(1)
}
