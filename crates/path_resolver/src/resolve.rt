//! One step of a resolution.

ghost use Rattle.std.specs.Prelude.{◌≡◌};
ghost use Rattle.path_resolver.specs.Resolving.{CanResolve, Resolves};
ghost use Rattle.path_resolver.specs.Stepping.{taken, told_by, HasRoom};

use crate::read::step_of;
use crate::step::End;
use db_state::{Db, Position};
use hops_base::{Hint, OpId, SessionId};
use std::alloc::Global;

/// What a step of a resolution tells.
#[derive(Clone, Copy, Debug, PartialEq, Eq)]
pub enum Resolve {
    /// A row was read, and there is more to read below it.
    More,
    /// The path is resolved, and the session has its plan.
    Found,
    /// The row read bears the flag of another's operation.
    Flagged(OpId),
    /// Memory ran out.
    NoMemory,
}

/// Reads the next one row of the path that a session resolves; for `/` there is none to read. Hints are taken and not looked at yet. After Flagged and NoMemory
/// all is as before.
pub fn resolve_step(alloc: Global, db: &mut Db, s: SessionId, _hints: &[Hint]) -> Resolve
    requires { CanResolve db.old s }
    ensures { Resolves db.old s result db.new }
{
    db.core();
    let Some(doing) = db.session(s) else {
        unreachable!()
    };
    let Ok(step) = step_of(alloc, db, doing) else {
        return Resolve::NoMemory;
    };
    if let Some(op) = step.flag() {
        return Resolve::Flagged(op);
    }
    let told = told_by(&step.end);
    db.go_on(
        s,
        move |position: Position| -> (Position, Resolve)
            requires { HasRoom step position.stage }
            ensures { result ≡ (taken step position, told) }
        { (step.take(position), told) },
    )
}

// What a step tells that comes to this end.
fn told_by(end: &Option<End>) -> Resolve
    ensures { result ≡ told_by end.now }
{
    match end {
        Some(_) => Resolve::Found,
        None => Resolve::More,
    }
}
