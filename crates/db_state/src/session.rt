//! What a session is, and how far it has come.

ghost use Rattle.std.specs.Prelude.{◌≡◌, option_map};
ghost use Rattle.row_locks.specs.Plans.{place_seen};
ghost use Rattle.db_state.specs.Inside.{has_any};
ghost use Rattle.db_state.specs.Stages.{keys_in, next_key, phase_of};

use crate::view::{FoundList, PlaceList, QuotaList};
use hops_base::{ClientNo, Hint, ItemList, Key, Mode, NodeNo, SessionId};
use name_space::Call;
use row_locks::Plan;
use std::marker::Model;

/// What a resolution found: which row under which parent has which id.
pub type Trail = ItemList<Hint>;

/// One call of a client, as a namenode carries it out.
#[derive(Debug, Drop)]
pub struct Session {
    pub client: ClientNo,
    /// The number of the client's call, counted from 1.
    pub number: u32,
    pub call: Call,
    pub node: NodeNo,
    /// The number of the note that opened it.
    pub opened: u64,
    /// How long the book was just before the first read of this attempt; before that read, when it last went on.
    pub since: u64,
    /// How many steps of its attempts have read to resolve their paths. It stays at its last value.
    pub reads: u64,
    /// Whether this is its first attempt.
    pub is_first: bool,
    /// Whether this attempt has looked for rows by hints.
    pub used_hints: bool,
    /// What the last resolution that came to its end found for the call's first path, for whoever resolves it next.
    pub trail: Trail,
    pub stage: Stage,
}

/// What a session has read in this attempt: a place for each path, from which of its rows on each is locked or was
/// read again, and the quota rows at the locked keys.
#[derive(Debug, Drop)]
pub struct Reads {
    pub places: PlaceList,
    pub marks: Vec<u64>,
    pub quotas: QuotaList,
}

/// What of a session changes as it goes on with its call.
#[derive(Debug, Drop)]
pub struct Position {
    pub since: u64,
    pub reads: u64,
    pub trail: Trail,
    pub stage: Stage,
}

impl Model for Reads {
    ghost use Rattle.db_state.specs.Reads as seen;

    ghost Value = { seen.Reads };

    ghost view = { λ r. record { places = r.places.items; marks = r.marks.items; quotas = r.quotas.items } };
}

/// How far a session has come in its attempt, with what it has so far.
#[derive(Debug, Drop)]
pub enum Stage {
    /// It finds the rows of its paths, one by one: the places that are whole, and the rows found for the next.
    Resolve(PlaceList, FoundList),
    /// It takes the keys of its plan, one by one: so many it holds.
    Lock(PlaceList, Plan, u64),
    /// It holds the keys of its plan, and reads the rows at them.
    Read(PlaceList, Plan),
    /// It reads the rows again that aren't locked, one by one, from the deepest of each path upwards.
    Reread(Reads, Plan),
    /// It answers its call from what it has read.
    Commit(Reads, Plan),
    /// It has ended.
    Answered,
}

/// How far a session has come, without what it has. The phases of subtree operations come with these.
#[derive(Clone, Copy, Debug, PartialEq, Eq)]
pub enum Phase {
    Resolve,
    Lock,
    Read,
    Reread,
    Commit,
    GateLock,
    Flag,
    Quiesce,
    Batch,
    Reclaim,
    Answered,
}

impl Stage {
    /// The phase alone. It takes no memory.
    pub fn phase(&self) -> Phase
        ensures { result ≡ phase_of self.now }
    {
        match self {
            Stage::Resolve(..) => Phase::Resolve,
            Stage::Lock(..) => Phase::Lock,
            Stage::Read(..) => Phase::Read,
            Stage::Reread(..) => Phase::Reread,
            Stage::Commit(..) => Phase::Commit,
            Stage::Answered => Phase::Answered,
        }
    }

    /// The next key that the session asks for, with its mode. None where it asks for none. It takes no memory.
    pub fn next_key(&self) -> Option<(&Key, Mode)>
        ensures { option_map place_seen result ≡ next_key self.now }
    {
        match self {
            Stage::Lock(_, plan, taken) => plan.get(*taken),
            _ => None,
        }
    }

    /// Whether the session holds any key. It takes no memory.
    pub fn holds_any(&self) -> bool
        ensures { result ≡ has_any (keys_in self.now) }
    {
        match self {
            Stage::Lock(_, plan, taken) => *taken > 0 && plan.len() > 0,
            Stage::Read(_, plan) | Stage::Reread(_, plan) | Stage::Commit(_, plan) => plan.len()
                > 0,
            Stage::Resolve(..) | Stage::Answered => false,
        }
    }
}

/// What is kept of a client beside its session.
#[derive(Clone, Copy, Debug, PartialEq, Eq)]
pub struct Seat {
    /// The number of the client's last call that was begun. 0 where none was.
    pub begun: u32,
    /// The number of its last call that was answered. 0 where none was.
    pub answered: u32,
    /// Its open session, or the last one that it had.
    pub last: Option<SessionId>,
}
