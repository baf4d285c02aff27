//! The sessions by their numbers.

ghost use Rattle.std.specs.Prelude.{◌≡◌, false, ℕ, Some, IfSome, IsSome, OnOk, OnErr, option_copied, option_map, if◌then◌else◌};
ghost use Rattle.std.specs.BTreeMap.{IsOrdered, get};
ghost use Rattle.std.specs.FinMap as map;
ghost use Rattle.std.specs.Ordering.{eq_by_cmp, nat_cmp};
ghost use Rattle.db_state.specs.Stages.{next_key, position_of, with_position};
ghost use Rattle.db_state.specs.Steps.{one_more, with_session};

use crate::session::{Position, Session, Stage, Trail};
use hops_base::{ItemList, NoMemory, SessionId};
use std::alloc::Global;
use std::collections::BTreeMap;
use std::marker::Model;
use std::mem;

/// Each client's open session, or the last one that it had, by its number.
#[derive(Drop)]
pub struct SessionTable {
    sessions: BTreeMap<u64, Session>,
}

impl Model for SessionTable {
    ghost use Rattle.std.specs.BTreeMap.{IsOrdered};
    ghost use Rattle.std.specs.FinMap as map;
    ghost use Rattle.std.specs.Ordering.{nat_cmp};
    ghost use Rattle.db_state.specs.Codes.{coded_sessions};
    ghost use Rattle.db_state.specs.State.{Sessions};
    ghost use Rattle.db_state.specs.declared.session.Session.{Session};
    ghost use Rattle.std.specs.Coded.{codes};

    ghost Value = { Sessions };

    ghost coded = { Prim.hlevel (codes, coded_sessions {S = Session}) };

    ghost view = { λ t. map.from_entries t.sessions.entries };

    ghost invariant = { λ t. IsOrdered nat_cmp t.sessions };
}

impl SessionTable {
    /// No sessions.
    pub fn new(alloc: Global) -> SessionTable
        ensures { result ≡ map.empty }
    {
        SessionTable {
            sessions: BTreeMap::new(alloc),
        }
    }

    /// The session of a number. None where there is none.
    pub fn get(&self, s: SessionId) -> Option<&Session>
        ensures { option_copied result ≡ map.get self.now s.0 }
    {
        self.sessions.get(&s.0)
    }

    /// Puts a session under its number.
    pub fn put(&mut self, s: SessionId, session: Session) -> Result<(), NoMemory>
        ensures ok { OnOk result (self.new ≡ with_session self.old s session) }
        ensures err { OnErr result (self.new ≡ self.old) }
    {
        match self.sessions.insert(s.0, session) {
            Ok(before) => drop_before(before),
            Err(refused) => {
                drop_session(refused.value.1);
                return Err(NoMemory);
            }
        }
        Ok(())
    }

    /// Takes a session away.
    pub fn remove(&mut self, s: SessionId)
        ensures { self.new ≡ map.remove self.old s.0 }
    {
        drop_before(self.sessions.remove(&s.0));
    }

    /// Brings a session to another stage.
    pub fn bring(&mut self, s: SessionId, stage: Stage)
        requires { IsSome (map.get self.old s.0) }
        ensures { (doing : Session) → map.get self.old s.0 ≡ Some doing → self.new ≡ with_session self.old s (record doing { stage = stage }) }
    {
        bring_in(&mut self.sessions, s.0, stage);
    }

    /// Brings a session to the stage at which an attempt begins or the session ends, where the book has this length.
    pub fn begin_at(&mut self, s: SessionId, since: u64, stage: Stage)
        requires { IsSome (map.get self.old s.0) }
        ensures { (doing : Session) → map.get self.old s.0 ≡ Some doing
            → self.new ≡ with_session self.old s (record doing { is_first = false; used_hints = false; since = since; stage = stage }) }
    {
        begin_in(&mut self.sessions, s.0, since, stage);
    }

    /// Lets `go` say how far a session then is. The allocator takes no memory.
    pub fn change<R, F: FnOnce(Position) -> (Position, R)>(
        &mut self,
        alloc: Global,
        s: SessionId,
        go: F,
    ) -> R
        requires there { IsSome (map.get self.old s.0) }
        requires may { (doing : Session) → map.get self.old s.0 ≡ Some doing → F.pre go (position_of doing) }
        ensures { (doing : Session) → map.get self.old s.0 ≡ Some doing
            → (new : Position) × F.post go (position_of doing) (new, result) × (self.new ≡ with_session self.old s (with_position doing new)) }
    {
        change_in(alloc, &mut self.sessions, s.0, go)
    }

    /// Counts one more key that the session has taken.
    pub fn count(&mut self, s: SessionId)
        requires asks { IfSome (map.get self.old s.0) (λ doing. IsSome (next_key doing.stage)) }
        requires there { IsSome (map.get self.old s.0) }
        ensures { (doing : Session) → map.get self.old s.0 ≡ Some doing
            → self.new ≡ with_session self.old s (record doing { stage = one_more doing.stage }) }
    {
        count_in(&mut self.sessions, s.0);
    }
}

fn bring_in(sessions: &mut BTreeMap<u64, Session>, number: u64, stage: Stage)
    requires ordered { IsOrdered nat_cmp sessions.old }
    requires there { IsSome (get nat_cmp sessions.old number) }
    ensures ordered { IsOrdered nat_cmp sessions.new }
    ensures sessions { (q : ℕ) → get nat_cmp sessions.new q ≡ (if eq_by_cmp nat_cmp number q
        then option_map (λ (doing : Session). record doing { stage = stage }) (get nat_cmp sessions.old q)
        else get nat_cmp sessions.old q) }
{
    let Some(session) = sessions.get_mut(&number) else {
        unreachable!()
    };
    set_stage(session, stage);
}

fn begin_in(sessions: &mut BTreeMap<u64, Session>, number: u64, since: u64, stage: Stage)
    requires ordered { IsOrdered nat_cmp sessions.old }
    requires there { IsSome (get nat_cmp sessions.old number) }
    ensures ordered { IsOrdered nat_cmp sessions.new }
    ensures sessions { (q : ℕ) → get nat_cmp sessions.new q ≡ (if eq_by_cmp nat_cmp number q
        then option_map (λ (doing : Session). record doing { is_first = false; used_hints = false; since = since; stage = stage }) (get nat_cmp sessions.old q)
        else get nat_cmp sessions.old q) }
{
    let Some(session) = sessions.get_mut(&number) else {
        unreachable!()
    };
    session.is_first = false;
    session.used_hints = false;
    session.since = since;
    set_stage(session, stage);
}

fn change_in<R, F: FnOnce(Position) -> (Position, R)>(
    alloc: Global,
    sessions: &mut BTreeMap<u64, Session>,
    number: u64,
    go: F,
) -> R
    requires ordered { IsOrdered nat_cmp sessions.old }
    requires there { IsSome (get nat_cmp sessions.old number) }
    requires may { (doing : Session) → get nat_cmp sessions.old number ≡ Some doing → F.pre go (position_of doing) }
    ensures ordered { IsOrdered nat_cmp sessions.new }
    ensures changed { (doing : Session) → get nat_cmp sessions.old number ≡ Some doing
        → (new : Position) × F.post go (position_of doing) (new, result)
        × ((q : ℕ) → get nat_cmp sessions.new q ≡ (if eq_by_cmp nat_cmp number q then Some (with_position doing new) else get nat_cmp sessions.old q)) }
{
    let Some(session) = sessions.get_mut(&number) else {
        unreachable!()
    };
    change_one(alloc, session, go)
}

// Lets `go` say how far the session then is.
fn change_one<R, F: FnOnce(Position) -> (Position, R)>(
    alloc: Global,
    session: &mut Session,
    go: F,
) -> R
    requires { F.pre go (position_of session.old) }
    ensures { (new : Position) × F.post go (position_of session.old) (new, result) × (session.new ≡ with_position session.old new) }
{
    let (position, answer) = go(Position {
        since: session.since,
        reads: session.reads,
        trail: mem::replace(&mut session.trail, ItemList::new(alloc)),
        stage: mem::replace(&mut session.stage, Stage::Answered),
    });
    session.since = position.since;
    session.reads = position.reads;
    drop_trail(mem::replace(&mut session.trail, position.trail));
    set_stage(session, position.stage);
    answer
}

fn count_in(sessions: &mut BTreeMap<u64, Session>, number: u64)
    requires ordered { IsOrdered nat_cmp sessions.old }
    requires there { IsSome (get nat_cmp sessions.old number) }
    requires asks { IfSome (get nat_cmp sessions.old number) (λ doing. IsSome (next_key doing.stage)) }
    ensures ordered { IsOrdered nat_cmp sessions.new }
    ensures sessions { (q : ℕ) → get nat_cmp sessions.new q ≡ (if eq_by_cmp nat_cmp number q
        then option_map (λ (doing : Session). record doing { stage = one_more doing.stage }) (get nat_cmp sessions.old q)
        else get nat_cmp sessions.old q) }
{
    let Some(session) = sessions.get_mut(&number) else {
        unreachable!()
    };
    count_one(session);
}

// Sets the stage of a session.
fn set_stage(session: &mut Session, stage: Stage)
    ensures { session.new ≡ record session.old { stage = stage } }
{
    drop_stage(mem::replace(&mut session.stage, stage));
}

// Counts one more key of a session that asks for one.
fn count_one(session: &mut Session)
    requires { IsSome (next_key session.old.stage) }
    ensures { session.new ≡ record session.old { stage = one_more session.old.stage } }
{
    let before = mem::replace(&mut session.stage, Stage::Answered);
    set_stage(session, one_more(before));
}

// The stage with one more key taken: with the last of them the session comes to read.
fn one_more(stage: Stage) -> Stage
    requires { IsSome (next_key stage) }
    ensures { result ≡ one_more stage }
{
    match stage {
        Stage::Lock(places, plan, taken) => {
            if taken + 1 == plan.len() {
                Stage::Read(places, plan)
            } else {
                Stage::Lock(places, plan, taken + 1)
            }
        }
        other => other,
    }
}

fn drop_before(before: Option<Session>) {
    if let Some(session) = before {
        drop_session(session);
    }
}

fn drop_session(_session: Session) {}

fn drop_stage(_stage: Stage) {}

fn drop_trail(_trail: Trail) {}
