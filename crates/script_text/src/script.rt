//! Scripts.

ghost use Rattle.std.specs.Prelude.{◌≡◌, IfOk};
ghost use Rattle.name_space.specs.Script.{IsScript, users_of};

use hops_base::{ItemList, NoMemory, StopList, User, UserList};
use name_space::Call;
use std::alloc::Global;
use std::marker::Model;

// The most namenodes of a script, clients, calls of a client, and the greatest count of conflicts, beats or commits.
pub(crate) const MOST_NAMENODES: u64 = 16;

pub(crate) const MOST_CLIENTS: usize = 64;

pub(crate) const MOST_CALLS: usize = 65_536;

pub(crate) const MOST_COUNT: u64 = 1_000_000;

// What a script has of conflicts and beats where it says nothing of them.
pub(crate) const DEFAULT_TRIES: u32 = 10_000;

pub(crate) const DEFAULT_GRACE: u32 = 64;

/// Calls.
pub type CallList = ItemList<Call>;

/// The clients of a script, by their numbers.
pub type ClientList = ItemList<ClientCalls>;

/// One client: the user that it acts for, and its calls in their order.
#[derive(Debug, Drop)]
pub struct ClientCalls {
    user: User,
    calls: CallList,
}

impl Model for ClientCalls {
    ghost use Rattle.name_space.specs.Script as seen;

    ghost Value = { seen.ClientCalls };

    ghost view = { λ c. record { user = c.user; calls = c.calls.items } };
}

impl ClientCalls {
    /// The client of this user and these calls.
    pub fn new(user: User, calls: CallList) -> ClientCalls
        ensures { result ≡ record { user = user; calls = calls.items } }
    {
        ClientCalls { user, calls }
    }

    /// The user that it acts for.
    pub fn user(&self) -> &User
        ensures { result.now ≡ self.now.user }
    {
        &self.user
    }

    /// Its calls in their order.
    pub fn calls(&self) -> &[Call]
        ensures { result.now ≡ self.now.calls }
    {
        self.calls.as_slice()
    }
}

/// A run: how many namenodes there are, the clients, which namenodes stop and at which of their commits,
/// the count of conflicts at which a call that doesn't persist gives up, the beats that a member may be
/// behind, and whether calls persist. Everything in it is within its range:
///
/// - 1 to 16 namenodes, and at most 64 clients, each with at most 65,536 calls that are valid;
/// - stops of namenodes that exist and differ, at commits 1 to 1,000,000;
/// - 1 to 1,000,000 conflicts, and 1 to 1,000,000 beats.
#[derive(Debug, Drop)]
pub struct Script {
    namenodes: u32,
    clients: ClientList,
    stops: StopList,
    tries: u32,
    grace: u32,
    persist: bool,
}

impl Model for Script {
    ghost use Rattle.name_space.specs.Script as seen;

    ghost Value = { seen.Script };

    ghost use Rattle.script_text.specs.Script.{script_of};

    ghost view = { script_of };

    ghost invariant = { λ s. seen.IsScript (script_of s) };
}

impl Script {
    /// The script of these parts, which are within their ranges.
    pub fn new(
        namenodes: u32,
        clients: ClientList,
        stops: StopList,
        tries: u32,
        grace: u32,
        persist: bool,
    ) -> Script
        requires { IsScript (record { namenodes = namenodes; clients = clients.items; stops = stops.items; tries = tries; grace = grace; persist = persist }) }
        ensures { result
            ≡ record { namenodes = namenodes; clients = clients.items; stops = stops.items; tries = tries; grace = grace; persist = persist } }
    {
        Script {
            namenodes,
            clients,
            stops,
            tries,
            grace,
            persist,
        }
    }

    /// How many namenodes there are.
    pub fn namenodes(&self) -> u32
        ensures namenodes { result ≡ self.now.namenodes }
        ensures script { IsScript self.now }
    {
        self.namenodes
    }

    /// The clients, by their numbers.
    pub fn clients(&self) -> &[ClientCalls]
        ensures clients { result.now ≡ self.now.clients }
        ensures script { IsScript self.now }
    {
        self.clients.as_slice()
    }

    /// The users that the clients act for, by the clients' numbers.
    pub fn users(&self, alloc: Global) -> Result<UserList, NoMemory>
        ensures { IfOk result (λ users. users.items ≡ users_of self.now) }
    {
        let mut users = UserList::new(alloc);
        users.reserve(self.clients.len())?;
        for client in self.clients.as_slice() {
            users.push(client.user().copy()?);
        }
        Ok(users)
    }

    /// Which namenodes stop, and at which of their commits.
    pub fn stops(&self) -> &StopList
        ensures stops { result.now.items ≡ self.now.stops }
        ensures script { IsScript self.now }
    {
        &self.stops
    }

    /// The count of conflicts at which a call that doesn't persist gives up.
    pub fn tries(&self) -> u32
        ensures tries { result ≡ self.now.tries }
        ensures script { IsScript self.now }
    {
        self.tries
    }

    /// The beats that a member may be behind.
    pub fn grace(&self) -> u32
        ensures grace { result ≡ self.now.grace }
        ensures script { IsScript self.now }
    {
        self.grace
    }

    /// Whether calls persist.
    pub fn persist(&self) -> bool
        ensures { result ≡ self.now.persist }
    {
        self.persist
    }
}
