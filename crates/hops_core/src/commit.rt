//! The step of a session that answers its call.

ghost use Rattle.std.specs.Prelude.{◌≡◌, IfOk, OnErr};
ghost use Rattle.db_state.specs.declared.session.Phase.TheVariants as phase;
ghost use Rattle.hops_core.specs.Commits.{Commits};
ghost use Rattle.hops_core.specs.declared.progress.Progress.TheVariants.{Done};
ghost use Rattle.hops_core.specs.Steps.{IsAt};
ghost use Rattle.hops_core.specs.Views.{CanOutcome, IsAskedIn, IsOutcome, Looks};

use crate::progress::Progress;
use crate::view::{Asked, asked_of, outcome_at};
use db_state::{Db, Outcome, Position};
use hops_base::{NoMemory, SessionId};
use name_space::{Reply, laws};
use std::alloc::Global;

/// Answers a session's call from what it has read.
pub fn commit_step(alloc: Global, db: &mut Db, s: SessionId) -> Progress
    requires { IsAt db.old s phase.Commit }
    ensures { Commits db.old s result db.new }
{
    match answer(alloc, db, s) {
        Ok((note, reply)) => Progress::Done(note, reply),
        Err(NoMemory) => Progress::NoMemory,
    }
}

// Answers the call. Tells the number of the note and the reply.
fn answer(alloc: Global, db: &mut Db, s: SessionId) -> Result<(u64, Reply), NoMemory>
    requires { IsAt db.old s phase.Commit }
    ensures ok { IfOk result (λ told. Commits db.old s (Done told.0 told.1) db.new) }
    ensures err { OnErr result (db.new ≡ db.old) }
{
    db.core();
    laws::plain_keeps_a_namespace();
    let outcome = outcome_of(alloc, db, s)?;
    let Outcome::Answer(reply, writes) = outcome else {
        unreachable!()
    };
    let told = reply.copy()?;
    let note = db.book().len();
    db.answer(s, writes, reply)?;
    Ok((note, told))
}

// What comes of the call, from what the session has read.
fn outcome_of(alloc: Global, db: &mut Db, s: SessionId) -> Result<Outcome, NoMemory>
    requires { IsAt db.old s phase.Commit }
    ensures same { db.new ≡ db.old }
    ensures outcome { IfOk result (IsOutcome db.old s) }
{
    db.core();
    let asked = asked_of(alloc, db, s)?;
    look(alloc, db, s, asked)
}

// Looks at what the session has read. The session stays as it is.
fn look(alloc: Global, db: &mut Db, s: SessionId, asked: Asked) -> Result<Outcome, NoMemory>
    requires at { IsAt db.old s phase.Commit }
    requires asked { IsAskedIn db.old s asked }
    ensures same { db.new ≡ db.old }
    ensures outcome { IfOk result (IsOutcome db.old s) }
{
    db.core();
    db.go_on(
        s,
        move |position: Position| -> (Position, Result<Outcome, NoMemory>)
            requires { CanOutcome position.stage asked }
            ensures { Looks position asked result.0 result.1 }
        { outcome_at(alloc, position, asked) },
    )
}
