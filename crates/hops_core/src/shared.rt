//! All that the namenodes share, and the events that it goes by.

ghost use Rattle.std.specs.Prelude.{◌≡◌, ◌↔◌, [], false, IfOk, IsSome, IsTrue, option_copied, slice_get};
ghost use Rattle.std.specs.FinMap as map;
ghost use Rattle.commit_log.specs.Legal.{space};
ghost use Rattle.db_state.specs.Callers.{IsOpen};
ghost use Rattle.db_state.specs.Core.{IsCore};
ghost use Rattle.db_state.specs.Stages.{is_over};
ghost use Rattle.db_state.specs.State.{opening_state};
ghost use Rattle.hops_core.specs.Events.{Advances, Begins, CanBegin, Quits};
ghost use Rattle.hops_core.specs.Shared.{HasOpen, IsNext, IsPhaseOf, IsTrailOf};
ghost use Rattle.hops_core.specs.Follows.{LeavesOthers};

use crate::begin_fault::BeginFault;
use crate::built::is_built;
use crate::progress::Progress;
use crate::step::step;
use commit_log::Book;
use db_state::{Db, Phase, Seat, Settings, Stage, tree_of};
use hops_base::{ClientNo, Hint, ItemList, NoMemory, NodeNo, Path, SessionId};
use name_space::{Call, Entry};
use std::alloc::Global;
use std::marker::Model;

// The most calls of a client.
const MOST_CALLS: u32 = 65_536;

/// All that the namenodes share: the tables, the locks, the book, and the clients' seats and sessions.
#[derive(Drop)]
pub struct Core {
    alloc: Global,
    db: Db,
}

impl Model for Core {
    ghost use Rattle.std.specs.Coded.{codes};
    ghost use Rattle.row_locks.specs.Locks.{coded_locks};
    ghost use Rattle.db_state.specs.Codes.{coded_rows, coded_sessions};
    ghost use Rattle.db_state.specs.State.{State};
    ghost use Rattle.db_state.specs.declared.session.Session.{Session};
    ghost use Rattle.inode_table.specs.declared.inode.Inode.{Inode};
    ghost use Rattle.quota_table.specs.declared.quota.QuotaRow.{QuotaRow};
    ghost use Rattle.hops_core.specs.Steady.{IsSteady};

    ghost Value = { State };

    ghost coded = { Prim.hlevel (codes, coded_rows {R = Inode}, coded_rows {R = QuotaRow}, coded_locks, coded_sessions {S = Session}) };

    ghost view = { λ c. c.db };

    ghost invariant = { λ c. IsSteady c.db };
}

impl Core {
    /// The opening namespace, `/` alone, with these settings: an empty book and no sessions. No namenode stops yet.
    pub fn open(alloc: Global, settings: &Settings) -> Result<Core, NoMemory>
        requires { settings.now.stops ≡ [] }
        ensures { IfOk result (λ core. core ≡ opening_state settings.now) }
    {
        let db = Db::start(alloc, settings)?;
        Ok(Core { alloc, db })
    }

    /// That all is as it always is. It does nothing.
    pub fn kept(&self)
        ensures { IsCore self.now }
    {
        self.db.core();
    }

    /// What is kept of a client: the number of the call that it began last, and its last session. None exactly where there
    /// is no such client. It takes no memory.
    pub fn seat(&self, client: ClientNo) -> Option<&Seat>
        ensures { option_copied result ≡ slice_get self.now.seats client.0 }
    {
        self.db.seat(client)
    }

    /// Whether a session is open. It takes no memory.
    pub fn is_open(&self, s: SessionId) -> bool
        ensures { IsTrue result ↔ IsOpen self.now s }
    {
        match self.db.session(s) {
            Some(doing) => is_running(&doing.stage),
            None => false,
        }
    }

    /// Whether a client may begin a call of this number at a namenode: both exist, the client has no open session, and the
    /// call is valid, of a kind that is built, and the next one by number, of at most 65,536. It takes no memory.
    pub fn can_begin(&self, client: ClientNo, number: u32, call: &Call, node: NodeNo) -> bool
        ensures { IsTrue result ↔ CanBegin self.now client number call.now node }
    {
        self.db.core();
        let Some(seat) = self.db.seat(client) else {
            return false;
        };
        if node.0 >= self.db.settings().namenodes() || self.has_open(seat) {
            return false;
        }
        if !is_next(seat, number) || !call.is_valid() {
            return false;
        }
        is_built(call)
    }

    /// Begins a client's next call at a namenode. A call that is refused is counted as begun, and nothing else changes.
    pub fn begin(
        &mut self,
        client: ClientNo,
        number: u32,
        call: &Call,
        node: NodeNo,
    ) -> Result<SessionId, BeginFault>
        requires { CanBegin self.old client number call.now node }
        ensures { Begins self.old client number call.now node result self.new }
    {
        match self.db.open(client, number, call, node) {
            Ok(s) => Ok(s),
            Err(NoMemory) => Err(BeginFault::NoMemory),
        }
    }

    /// Makes one step of an open session. Hints are taken and not looked at yet. Done ends the session; after NoMemory all
    /// is as before.
    pub fn advance(&mut self, s: SessionId, hints: &[Hint]) -> Progress
        requires { IsOpen self.old s }
        ensures made { Advances self.old s result self.new }
        ensures follows { LeavesOthers self.old self.new s }
    {
        self.db.core();
        step(self.alloc, &mut self.db, s, hints)
    }

    /// Ends an open session, and gives back its locks. It takes no memory.
    pub fn quit(&mut self, s: SessionId)
        requires { IsOpen self.old s }
        ensures made { Quits self.old s self.new }
        ensures follows { LeavesOthers self.old self.new s }
    {
        self.db.core();
        self.db.end(s);
    }

    /// The book. It takes no memory.
    pub fn book(&self) -> &Book
        ensures { result.now.notes ≡ self.now.stored.notes }
    {
        self.db.book()
    }

    /// The phase of a session that is open or its client's last; an ended one is Answered. It takes no memory.
    pub fn phase(&self, s: SessionId) -> Phase
        requires { IsSome (map.get self.now.sessions s.0) }
        ensures { IsPhaseOf self.now s result }
    {
        match self.db.session(s) {
            Some(doing) => doing.stage.phase(),
            None => unreachable!(),
        }
    }

    /// What a session's last finished resolution found of its call's path; empty where none has finished. It takes no
    /// memory.
    pub fn trail(&self, s: SessionId) -> &[Hint]
        requires { IsSome (map.get self.now.sessions s.0) }
        ensures { IsTrailOf self.now s result.now }
    {
        match self.db.session(s) {
            Some(doing) => doing.trail.as_slice(),
            None => unreachable!(),
        }
    }

    /// Whether a session is open and an operation of its own runs. No call that is built runs one. It takes no memory.
    pub fn flagged(&self, s: SessionId) -> bool
        requires { IsSome (map.get self.now.sessions s.0) }
        ensures { result ≡ false }
    {
        let _ = self.db.session(s);
        false
    }

    /// The namespace that the rows spell, in path order, `/` first. It is the last of the book's history.
    pub fn tree(&self) -> Result<ItemList<(Path, Entry)>, NoMemory>
        ensures { IfOk result (λ tree. tree.items ≡ space self.now.stored.settings.users self.now.stored.notes) }
    {
        tree_of(self.alloc, &self.db)
    }

    // Whether the last session of a client's seat is open.
    fn has_open(&self, seat: &Seat) -> bool
        ensures { IsTrue result ↔ HasOpen self.now seat.now }
    {
        match seat.last {
            Some(last) => self.is_open(last),
            None => false,
        }
    }

    /// The book alone. It takes no memory.
    pub fn into_book(self) -> Book
        ensures { result.notes ≡ self.stored.notes }
    {
        self.db.into_book()
    }
}

// Whether a client may begin a call of this number next.
fn is_next(seat: &Seat, number: u32) -> bool
    ensures { IsTrue result ↔ IsNext seat.now number }
{
    u64::from(number) == u64::from(seat.begun) + 1 && number <= MOST_CALLS
}

// Whether a session at this stage hasn't ended.
fn is_running(stage: &Stage) -> bool
    ensures { IsTrue result ↔ (is_over stage.now ≡ false) }
{
    match stage {
        Stage::Answered => false,
        _ => true,
    }
}
