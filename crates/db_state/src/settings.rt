//! What a run is set up with.

ghost use Rattle.std.specs.Prelude.{◌≡◌, IfOk, option_copied, slice_get};
ghost use Rattle.db_state.specs.Settings.{IsSettings};

use hops_base::{ClientNo, NoMemory, NodeNo, StopList, User, UserList};
use std::marker::Model;

/// How many namenodes a run has, the users that its clients act for, by the clients' numbers, the beats that
/// a member may be behind, and which namenodes stop at which of their commits. Everything in it is within
/// its range:
///
/// - 1 to 16 namenodes, and at most 64 clients;
/// - 1 to 1,000,000 beats;
/// - stops of namenodes that exist and differ, at commits 1 to 1,000,000.
#[derive(Debug, Drop)]
pub struct Settings {
    namenodes: u32,
    users: UserList,
    grace: u32,
    stops: StopList,
}

impl Model for Settings {
    ghost use Rattle.db_state.specs.Settings as seen;

    ghost Value = { seen.Settings };

    ghost view = { λ s. record { namenodes = s.namenodes; users = s.users.items; grace = s.grace; stops = s.stops.items } };

    ghost invariant = { λ s. seen.IsSettings (record { namenodes = s.namenodes; users = s.users.items; grace = s.grace; stops = s.stops.items }) };
}

impl Settings {
    /// The settings of these parts, which are within their ranges.
    pub fn new(namenodes: u32, users: UserList, grace: u32, stops: StopList) -> Settings
        requires { IsSettings (record { namenodes = namenodes; users = users.items; grace = grace; stops = stops.items }) }
        ensures { result ≡ record { namenodes = namenodes; users = users.items; grace = grace; stops = stops.items } }
    {
        Settings {
            namenodes,
            users,
            grace,
            stops,
        }
    }

    /// How many namenodes there are.
    pub fn namenodes(&self) -> u32
        ensures namenodes { result ≡ self.now.namenodes }
        ensures settings { IsSettings self.now }
    {
        self.namenodes
    }

    /// How many beats a member may be behind.
    pub fn grace(&self) -> u32
        ensures grace { result ≡ self.now.grace }
        ensures settings { IsSettings self.now }
    {
        self.grace
    }

    /// Which namenodes stop, and at which of their commits.
    pub fn stops(&self) -> &[(NodeNo, u32)]
        ensures stops { result.now ≡ self.now.stops }
        ensures settings { IsSettings self.now }
    {
        self.stops.as_slice()
    }

    /// The users that the clients act for, by the clients' numbers.
    pub fn users(&self) -> &[User]
        ensures users { result.now ≡ self.now.users }
        ensures settings { IsSettings self.now }
    {
        self.users.as_slice()
    }

    /// The user that a client acts for. None exactly where there is no such client.
    pub fn user(&self, client: ClientNo) -> Option<&User>
        ensures { option_copied result ≡ slice_get self.now.users client.0 }
    {
        self.users.get(client.0 as u64)
    }

    /// The same settings again.
    pub fn copy(&self) -> Result<Settings, NoMemory>
        ensures { IfOk result (λ settings. settings ≡ self.now) }
    {
        Ok(Settings {
            namenodes: self.namenodes,
            users: copy_users(&self.users)?,
            grace: self.grace,
            stops: copy_stops(&self.stops)?,
        })
    }
}

fn copy_users(users: &UserList) -> Result<UserList, NoMemory>
    ensures { IfOk result (λ copy. copy ≡ users.now) }
{
    let mut copy = users.empty_like()?;
    for user in users.as_slice() {
        copy.push(user.copy()?);
    }
    Ok(copy)
}

fn copy_stops(stops: &StopList) -> Result<StopList, NoMemory>
    ensures { IfOk result (λ copy. copy ≡ stops.now) }
{
    let mut copy = stops.empty_like()?;
    for stop in stops.as_slice() {
        copy.push(*stop);
    }
    Ok(copy)
}
