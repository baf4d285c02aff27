//! The next row that a session has left to read again.

ghost use Rattle.std.specs.Prelude.{◌≡◌, ◌≤◌, length, slice_get};
ghost use Rattle.db_state.specs.declared.view.Place as view;
ghost use Rattle.chain_check.specs.Search.{AreMarked, HasRow, IsLastFree, IsNext, IsNextAt, LeavesAny};

use db_state::{Db, Place};
use hops_base::{Key, SessionId};
use inode_table::Inode;

/// Where a row stands: in which place, and as which of its rows.
#[derive(Clone, Copy, Debug)]
pub(crate) struct Spot {
    pub place: usize,
    pub row: u64,
}

/// The next row that is left of the places from this number on: in the first of them that has one, the deepest.
pub(crate) fn next_left(
    db: &Db,
    s: SessionId,
    places: &[Place],
    marks: &[u64],
    from: usize,
) -> Option<Spot>
    requires { AreMarked marks.now places.now }
    ensures { IsNext db.now.locks s marks.now places.now from result }
{
    for place in from..places.len() {
        let rows = places[place].found.as_slice();
        if let Some(row) = last_free(db, s, rows, marks[place]) {
            return Some(Spot { place, row });
        }
    }
    None
}

/// Whether any row is left after this one, the next.
pub(crate) fn leaves_any(db: &Db, s: SessionId, places: &[Place], marks: &[u64], next: Spot) -> bool
    requires marked { AreMarked marks.now places.now }
    requires next { IsNextAt db.now.locks s marks.now places.now 0 next }
    ensures { LeavesAny db.now.locks s marks.now places.now next result }
{
    let rows = places[next.place].found.as_slice();
    last_free(db, s, rows, next.row).is_some()
        || next_left(db, s, places, marks, next.place + 1).is_some()
}

/// The row at this spot.
pub(crate) fn row_at(places: &[Place], spot: Spot) -> &(Key, Inode)
    requires { HasRow places.now spot }
    ensures { (place : view.Place) → slice_get places.now spot.place ≡ Some place → slice_get place.found.items spot.row ≡ Some result.now }
{
    let rows = places[spot.place].found.as_slice();
    &rows[spot.row as usize]
}

/// The number of the last row below the mark that the session doesn't hold, but for the root's. None where it holds each of them.
/// It takes no memory.
pub fn last_free(db: &Db, s: SessionId, rows: &[(Key, Inode)], mark: u64) -> Option<u64>
    requires { mark ≤ length rows.now }
    ensures { IsLastFree db.now.locks s rows.now mark result }
{
    let mut row = mark;
    while row > 1 {
        row -= 1;
        if db.holds(s, &rows[row as usize].0).is_none() {
            return Some(row);
        }
    }
    None
}
