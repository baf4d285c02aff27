//! One step of a reread.

ghost use Rattle.std.specs.Prelude.{◌≡◌};
ghost use Rattle.db_state.specs.Core.{IsCore};
ghost use Rattle.chain_check.specs.Passing.{told_of, HasReads, HasSome, IsLook, IsRereadBy, Looks, Passes};
ghost use Rattle.chain_check.specs.Rereading.{IsRereading, Rereads};
ghost use Rattle.chain_check.specs.Search.{AreMarked};

use crate::passing::{Passed, pass};
use crate::row::{Halt, read_again};
use crate::search::{leaves_any, next_left, row_at};
use db_state::{Db, Place, Position, Reads, Stage};
use hops_base::{OpId, SessionId};

/// What a step of a reread tells.
#[derive(Clone, Copy, Debug, PartialEq, Eq)]
pub enum Reread {
    /// The row is as it was found, and more are left.
    More,
    /// The row is as it was found, and none is left: what was found stands.
    Current,
    /// The row isn't there, or isn't as it was found.
    Changed,
    /// The row is as it was found, and bears the flag of another's operation.
    Flagged(OpId),
}

/// Reads the next row again that a session has left. After Changed and Flagged all is as before. It takes no memory.
pub fn reread_step(db: &mut Db, s: SessionId) -> Reread
    requires { IsRereading db.old s }
    ensures { Rereads db.old s result db.new }
{
    db.core();
    match look(db, s) {
        Ok(passed) => db.go_on(
            s,
            move |position: Position| -> (Position, Reread)
                requires { HasReads position.stage passed.spot.place }
                ensures { Passes position passed result.0 result.1 }
            { pass(position, passed) },
        ),
        Err(halt) => told_of(halt),
    }
}

// What a session that reads rows again has read.
fn reads_of(db: &Db, s: SessionId) -> &Reads
    requires { IsRereading db.now s }
    ensures { IsRereadBy db.now s result.now }
{
    let Some(doing) = db.session(s) else {
        unreachable!()
    };
    let Stage::Reread(reads, _) = &doing.stage else {
        unreachable!()
    };
    reads
}

// Reads the next row again that the session has left.
fn look(db: &Db, s: SessionId) -> Result<Passed, Halt>
    requires core { IsCore db.now }
    requires rereads { IsRereading db.now s }
    ensures { Looks db.now s result }
{
    let reads = reads_of(db, s);
    look_at(db, s, reads.places.as_slice(), reads.marks.as_slice())
}

// Reads the next row again that is left of these places.
fn look_at(db: &Db, s: SessionId, places: &[Place], marks: &[u64]) -> Result<Passed, Halt>
    requires marked { AreMarked marks.now places.now }
    requires some { HasSome db.now.locks s marks.now places.now }
    ensures { IsLook db.now s marks.now places.now result }
{
    let Some(spot) = next_left(db, s, places, marks, 0) else {
        unreachable!()
    };
    read_again(db, row_at(places, spot))?;
    let more = leaves_any(db, s, places, marks, spot);
    Ok(Passed { spot, more })
}

// What is told where a row can't be passed.
fn told_of(halt: Halt) -> Reread
    ensures { result ≡ told_of halt }
{
    match halt {
        Halt::Changed => Reread::Changed,
        Halt::Flagged(op) => Reread::Flagged(op),
    }
}
