//! The step of a session that reads what it has locked.
//!
//! It reads in place: a row that it reads again replaces the one that was found, and nothing else is copied. All memory is taken
//! before the session goes on. A session has one place, since each call that it carries out has one path; and it reads no quota
//! rows, since no directory has a quota.

ghost use Rattle.std.specs.Prelude.{List, ◌≡◌, ◌≤◌, ◌∷◌, ◌++◌, [], false, length, IfOk, OnOk, IsTrue, ◌↔◌};
ghost use Rattle.hops_base.specs.declared.ids.Mode.{Mode};
ghost use Rattle.hops_base.specs.declared.key.Key.{Key};
ghost use Rattle.chain_check.specs.Search.{IsLastFree};
ghost use Rattle.db_state.specs.Current.{IsMissing};
ghost use Rattle.db_state.specs.declared.session.Phase.TheVariants as phase;
ghost use Rattle.db_state.specs.declared.view.Place as view;
ghost use Rattle.hops_core.specs.Steps.{IsAt};
ghost use Rattle.hops_core.specs.ReadLocked.{mark_of, put, refreshed, refreshed_place, since_of, stage_of, AreRead, AreRowsAt, AreRowsOf, GoesTo, HasOne, HasRead, IsLook, IsOne, IsRead, Looks, ReadsLocked};

use chain_check::{is_same, last_free};
use db_state::{Db, Place, PlaceList, Position, Reads, Stage};
use hops_base::{ItemList, Key, NoMemory, SessionId};
use inode_table::Inode;
use std::alloc::Global;
use std::mem;

/// What the reading of what is locked tells.
#[derive(Clone, Copy, Debug, PartialEq, Eq)]
pub enum Locked {
    /// All is as it was found.
    AsFound,
    /// Something isn't.
    Changed,
    /// Memory ran out.
    NoMemory,
}

// What was read of a session's one place.
#[derive(Debug, Drop)]
struct Again {
    // for each row found the table's, where its key is locked
    rows: Vec<Option<Inode>>,
    // the mark of the place, alone in its list
    marks: Vec<u64>,
    // whether rows above the last are left to read again
    left: bool,
    // how long the book was before the attempt's first read
    since: u64,
}

// Why a session can't go on.
#[derive(Clone, Copy, Debug)]
enum Halt {
    // something isn't as it was found
    Changed,
    // memory ran out
    NoMemory,
}

impl From<NoMemory> for Halt {
    ghost use Rattle.hops_core.specs.declared.read.Halt.{Halt};

    ghost from_gives = { λ _ halt. halt ≡ Halt.NoMemory };

    fn from(_error: NoMemory) -> Halt {
        Halt::NoMemory
    }
}

/// Reads all rows at a session's locked keys, and the first missing key. After Changed and NoMemory all is as before.
pub fn read_step(alloc: Global, db: &mut Db, s: SessionId) -> Locked
    requires { IsAt db.old s phase.Read }
    ensures { ReadsLocked db.old s result db.new }
{
    db.core();
    match look(alloc, db, s) {
        Ok(again) => db.go_on(
            s,
            move |position: Position| -> (Position, Locked)
                requires { AreRowsAt position.stage again.rows.items }
                ensures { GoesTo position again result.0 result.1 }
            { go(alloc, position, again) },
        ),
        Err(Halt::Changed) => Locked::Changed,
        Err(Halt::NoMemory) => Locked::NoMemory,
    }
}

// Reads once more what the session has locked.
fn look(alloc: Global, db: &Db, s: SessionId) -> Result<Again, Halt>
    requires { HasRead db.now s }
    ensures { Looks db.now s result }
{
    let Some(doing) = db.session(s) else {
        unreachable!()
    };
    look_at(alloc, db, s, place_of(&doing.stage), doing.since)
}

// The one place of a session that is to read.
fn place_of(stage: &Stage) -> &Place
    requires { HasOne stage.now }
    ensures { (place : view.Place) (keys : List (Key × Mode)) → IsOne stage.now place keys → result.now ≡ place }
{
    let Stage::Read(places, _) = stage else {
        unreachable!()
    };
    let Some(place) = places.get(0) else {
        unreachable!()
    };
    place
}

// Reads once more what the session has locked of this place.
fn look_at(alloc: Global, db: &Db, s: SessionId, place: &Place, since: u64) -> Result<Again, Halt>
    ensures { IsLook db.now s place.now since result }
{
    if has_appeared(db, &place.missing) {
        return Err(Halt::Changed);
    }
    let found = place.found.as_slice();
    let rows = read_rows(alloc, db, s, found)?;
    let last = place.found.len().saturating_sub(1);
    let left = last_free(db, s, found, last).is_some();
    let marks = marks_of(alloc, last, left)?;
    let since = since_of(db, place, since);
    Ok(Again {
        rows,
        marks,
        left,
        since,
    })
}

// Whether there is a row where none was found.
fn has_appeared(db: &Db, missing: &Option<Key>) -> bool
    ensures { (result ≡ false) ↔ IsMissing db.now.stored.inodes missing.now }
{
    match missing {
        Some(key) => db.inode(key).is_some(),
        None => false,
    }
}

// Reads once more each of these rows whose key the session holds.
fn read_rows(
    alloc: Global,
    db: &Db,
    s: SessionId,
    found: &[(Key, Inode)],
) -> Result<Vec<Option<Inode>>, Halt>
    ensures { AreRead db.now s found.now result }
{
    let mut rows = Vec::new(alloc);
    for row in found {
        let now = read_row(db, s, row)?;
        push_row(&mut rows, now)?;
    }
    Ok(rows)
}

// Adds a row.
fn push_row(rows: &mut Vec<Option<Inode>>, row: Option<Inode>) -> Result<(), NoMemory>
    ensures { OnOk result (rows.new.items ≡ rows.old.items ++ row ∷ []) }
{
    rows.push(row)?;
    Ok(())
}

// Reads a row once more, if the session holds its key.
fn read_row(db: &Db, s: SessionId, found: &(Key, Inode)) -> Result<Option<Inode>, Halt>
    ensures { IsRead db.now s found.now result }
{
    if db.holds(s, &found.0).is_none() {
        return Ok(None);
    }
    let Some(now) = db.inode(&found.0) else {
        return Err(Halt::Changed);
    };
    if !is_same(&found.1, now) {
        return Err(Halt::Changed);
    }
    match now.copy() {
        Ok(now) => Ok(Some(now)),
        Err(NoMemory) => Err(Halt::NoMemory),
    }
}

// The one mark: that of the last row, or the lowest where none is left above it.
fn marks_of(alloc: Global, last: u64, left: bool) -> Result<Vec<u64>, NoMemory>
    ensures { IfOk result (λ marks. marks.items ≡ mark_of last left ∷ []) }
{
    let mut marks = Vec::new(alloc);
    marks.push(if left { last } else { last.min(1) })?;
    Ok(marks)
}

// How long the book was just before the attempt's first read: the root's row alone needs none.
fn since_of(db: &Db, place: &Place, since: u64) -> u64
    ensures { result ≡ since_of place.now since (length db.now.stored.notes) }
{
    if place.found.len() <= 1 && place.missing.is_none() {
        db.book().len()
    } else {
        since
    }
}

// How far a session is that has read what it has locked.
fn go(alloc: Global, position: Position, again: Again) -> (Position, Locked)
    requires { AreRowsAt position.stage again.rows.items }
    ensures { GoesTo position again result.0 result.1 }
{
    let since = again.since;
    let stage = stage_of(alloc, position.stage, again);
    (
        Position {
            since,
            stage,
            ..position
        },
        Locked::AsFound,
    )
}

// Its stage: it reads the rows above again, or comes to answer.
fn stage_of(alloc: Global, stage: Stage, again: Again) -> Stage
    requires { AreRowsAt stage again.rows.items }
    ensures { (place : view.Place) (keys : List (Key × Mode)) → IsOne stage place keys → result ≡ stage_of place keys again }
{
    let Stage::Read(places, plan) = stage else {
        unreachable!()
    };
    let reads = Reads {
        places: places_of(alloc, places, again.rows),
        marks: again.marks,
        quotas: ItemList::new(alloc),
    };
    if again.left {
        Stage::Reread(reads, plan)
    } else {
        Stage::Commit(reads, plan)
    }
}

// The one place with the rows that were read once more.
fn places_of(alloc: Global, places: PlaceList, rows: Vec<Option<Inode>>) -> PlaceList
    requires { AreRowsOf places.items rows.items }
    ensures { (place : view.Place) → places.items ≡ place ∷ [] → result.items ≡ refreshed_place place rows.items ∷ [] }
{
    let mut places = places.into_vec();
    refresh(alloc, &mut places[0], rows);
    ItemList::from_vec(places)
}

// Puts the rows that were read once more in the place of those found.
fn refresh(alloc: Global, place: &mut Place, rows: Vec<Option<Inode>>)
    requires { length rows.items ≤ length place.old.found.items }
    ensures { place.new ≡ refreshed_place place.old rows.items }
{
    let found = mem::replace(&mut place.found, ItemList::new(alloc));
    let mut found = found.into_vec();
    put_rows(&mut found, rows);
    place.found = ItemList::from_vec(found);
}

// Puts each row that was read once more under its key.
fn put_rows(found: &mut Vec<(Key, Inode)>, rows: Vec<Option<Inode>>)
    requires { length rows.items ≤ length found.old.items }
    ensures { found.new.items ≡ refreshed found.old.items rows.items }
{
    let mut at = 0;
    for row in rows {
        put_row(&mut found[at], row);
        at += 1;
    }
}

// Puts a row under its key, if it was read once more.
fn put_row(found: &mut (Key, Inode), row: Option<Inode>)
    ensures { found.new ≡ put found.old row }
{
    if let Some(row) = row {
        found.1 = row;
    }
}
