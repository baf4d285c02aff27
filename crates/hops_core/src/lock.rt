//! The step of a session that takes its keys.

ghost use Rattle.db_state.specs.Callers.{IsKeptAway};
ghost use Rattle.db_state.specs.declared.session.Phase.TheVariants as phase;
ghost use Rattle.hops_core.specs.Events.{Advances};
ghost use Rattle.hops_core.specs.Steps.{IsAt, IsMeeting};

use crate::progress::Progress;
use db_state::Db;
use hops_base::{NoMemory, SessionId};
use row_locks::Ask;

/// Takes the next key of a session's plan, or meets the least session that keeps it away.
pub fn lock_step(db: &mut Db, s: SessionId) -> Progress
    requires { IsAt db.old s phase.Lock }
    ensures { Advances db.old s result db.new }
{
    db.core();
    match db.take(s) {
        Ask::Held => Progress::More,
        Ask::Busy(holder) => meet(db, s, holder),
        Ask::NoMemory => Progress::NoMemory,
    }
}

// Meets the session that keeps it away.
fn meet(db: &mut Db, s: SessionId, holder: SessionId) -> Progress
    requires { IsKeptAway db.old s holder }
    ensures { IsMeeting db.old s holder result db.new }
{
    let note = db.book().len();
    match db.meet(s, holder) {
        Ok(()) => Progress::Met(note),
        Err(NoMemory) => Progress::NoMemory,
    }
}
