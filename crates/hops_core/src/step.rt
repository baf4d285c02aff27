//! One step of a session.

ghost use Rattle.std.specs.Prelude.{◌≡◌, false};
ghost use Rattle.db_state.specs.Callers.{IsBehind, IsOpen};
ghost use Rattle.db_state.specs.declared.session.Phase.TheVariants as phase;
ghost use Rattle.hops_core.specs.Steady.{IsSteady};
ghost use Rattle.hops_core.specs.Events.{Advances};
ghost use Rattle.hops_core.specs.Steps.{IsAt, IsChanging, IsPhase};

use crate::commit::commit_step;
use crate::lock::lock_step;
use crate::progress::Progress;
use crate::read::{Locked, read_step};
use chain_check::{Reread, reread_step};
use db_state::{Db, Phase};
use hops_base::{Hint, NoMemory, SessionId};
use path_resolver::{Resolve, resolve_step};
use std::alloc::Global;

/// Makes one step of a session that is open.
pub fn step(alloc: Global, db: &mut Db, s: SessionId, hints: &[Hint]) -> Progress
    requires open { IsOpen db.old s }
    requires steady { IsSteady db.old }
    ensures { Advances db.old s result db.new }
{
    match phase_at(db, s) {
        Phase::Resolve => resolve(alloc, db, s, hints),
        Phase::Lock => lock_step(db, s),
        Phase::Read => read(alloc, db, s),
        Phase::Reread => reread(db, s),
        Phase::Commit => commit(alloc, db, s),
        _ => unreachable!(),
    }
}

// The phase of a session that is open.
fn phase_at(db: &Db, s: SessionId) -> Phase
    requires { IsOpen db.now s }
    ensures { IsPhase db.now s result }
{
    match db.session(s) {
        Some(doing) => doing.stage.phase(),
        None => unreachable!(),
    }
}

// Reads the next row of the session's path. No row bears a flag yet.
fn resolve(alloc: Global, db: &mut Db, s: SessionId, hints: &[Hint]) -> Progress
    requires { IsAt db.old s phase.Resolve }
    ensures { Advances db.old s result db.new }
{
    db.core();
    match resolve_step(alloc, db, s, hints) {
        Resolve::More | Resolve::Found => Progress::More,
        Resolve::Flagged(_) => unreachable!(),
        Resolve::NoMemory => Progress::NoMemory,
    }
}

// Reads what the session has locked.
fn read(alloc: Global, db: &mut Db, s: SessionId) -> Progress
    requires { IsAt db.old s phase.Read }
    ensures { Advances db.old s result db.new }
{
    db.core();
    match read_step(alloc, db, s) {
        Locked::AsFound => Progress::More,
        Locked::Changed => change(db, s),
        Locked::NoMemory => Progress::NoMemory,
    }
}

// Reads the next row again that the session has left. No row bears a flag yet.
fn reread(db: &mut Db, s: SessionId) -> Progress
    requires { IsAt db.old s phase.Reread }
    ensures { Advances db.old s result db.new }
{
    db.core();
    match reread_step(db, s) {
        Reread::More | Reread::Current => Progress::More,
        Reread::Changed => change(db, s),
        Reread::Flagged(_) => unreachable!(),
    }
}

// Answers the session's call.
fn commit(alloc: Global, db: &mut Db, s: SessionId) -> Progress
    requires { IsAt db.old s phase.Commit }
    ensures { Advances db.old s result db.new }
{
    commit_step(alloc, db, s)
}

// Tells that what the session had found was changed, and begins its next attempt.
fn change(db: &mut Db, s: SessionId) -> Progress
    requires { IsBehind db.old s false }
    ensures { IsChanging db.old s result db.new }
{
    match db.change(s) {
        Ok(()) => Progress::Met(db.book().len() - 1),
        Err(NoMemory) => Progress::NoMemory,
    }
}
