//! The plan of the keys that a call of one path locks.

ghost use Rattle.std.specs.Prelude.{◌≡◌, ◌++◌, [], ◌∷◌, not, IfOk, OnOk, map};
ghost use Rattle.std.specs.List.{flat_map};
ghost use Rattle.hops_base.specs.declared.key.Key.TheVariants.{Quota};
ghost use Rattle.inode_table.specs.declared.inode.Inode.{Inode};
ghost use Rattle.row_locks.specs.Plans.{IsPlan};
ghost use Rattle.db_state.specs.Plan.{is_whole, lease, low, next, own_dir, parent, plan, quotas, where_so, writer_lease};
ghost use Rattle.db_state.specs.ReadSteps.{IsOfPath};
ghost use Rattle.path_resolver.specs.Keys.{mode_of, Adds, AddsPath};
ghost use Rattle.path_resolver.specs.Ways.{place_of};

use crate::way::Way;
use hops_base::{ClientNo, Key, Mode, NoMemory};
use inode_table::Inode;
use name_space::Call;
use row_locks::Plan;
use std::alloc::Global;

// Keys, in the one mode in which a call locks those of its path.
#[derive(Drop)]
struct Wanted {
    mode: Mode,
    keys: Vec<(Key, Mode)>,
}

/// The plan of a client's call for what was found for its one path.
pub fn plan_of(alloc: Global, client: ClientNo, call: &Call, way: &Way) -> Result<Plan, NoMemory>
    requires { IsOfPath call.now }
    ensures { IfOk result (λ keys. IsPlan (plan client call.now (place_of way.now ∷ [])) keys) }
{
    let mut wanted = Wanted {
        mode: mode_of(call),
        keys: Vec::new(alloc),
    };
    wanted.add_path(client, call, way)?;
    let mut keys = wanted.keys;
    keys.push((Key::Reply(client), Mode::Exclusive))?;
    Plan::make(keys)
}

// The mode in which a call locks the keys of its path.
fn mode_of(call: &Call) -> Mode
    ensures { result ≡ mode_of call.now }
{
    if call.changes() {
        Mode::Exclusive
    } else {
        Mode::Shared
    }
}

impl Wanted {
    // Adds what a call of one path locks beside its client's reply key.
    fn add_path(&mut self, client: ClientNo, call: &Call, way: &Way) -> Result<(), NoMemory>
        requires of { IsOfPath call.now }
        requires mode { self.old.mode ≡ mode_of call.now }
        ensures { OnOk result (AddsPath client call.now (place_of way.now) self.old self.new) }
    {
        match call {
            Call::Mkdirs(_) => self.add_new_dirs(way),
            Call::Create(..) => self.add_new_file(client, way),
            Call::Append(_) | Call::Close(_) => self.add_file(client, way),
            Call::Grow(..) => self.add_growth(client, way),
            Call::Delete(..) => self.add_removed(way),
            Call::SetQuota(..) => self.add_new_quota(way),
            Call::Usage(_) => self.add_own_quota(way),
            Call::Stat(_) | Call::List(_) | Call::Chmod(..) => self.add_low(way),
            Call::Rename(..) => unreachable!(),
        }
    }

    // Adds what new directories lock.
    fn add_new_dirs(&mut self, way: &Way) -> Result<(), NoMemory>
        ensures { OnOk result (Adds (low (place_of way.now) ++ next (place_of way.now) ++ where_so (not (is_whole (place_of way.now))) (quotas (place_of way.now))) self.old self.new) }
    {
        self.add_low(way)?;
        self.add_next(way)?;
        if way.is_whole() {
            return Ok(());
        }
        self.add_quotas(way)
    }

    // Adds what a new file locks, and what the file locks in whose place it may stand.
    fn add_new_file(&mut self, client: ClientNo, way: &Way) -> Result<(), NoMemory>
        ensures { OnOk result (Adds (low (place_of way.now) ++ next (place_of way.now) ++ quotas (place_of way.now) ++ writer_lease (place_of way.now) ++ lease client (place_of way.now)) self.old self.new) }
    {
        self.add_low(way)?;
        self.add_next(way)?;
        self.add_quotas(way)?;
        self.add_writer_lease(way)?;
        self.add_lease(client, way)
    }

    // Adds what a file locks that a client writes.
    fn add_file(&mut self, client: ClientNo, way: &Way) -> Result<(), NoMemory>
        ensures { OnOk result (Adds (low (place_of way.now) ++ lease client (place_of way.now)) self.old self.new) }
    {
        self.add_low(way)?;
        self.add_lease(client, way)
    }

    // Adds what a file locks that grows.
    fn add_growth(&mut self, client: ClientNo, way: &Way) -> Result<(), NoMemory>
        ensures { OnOk result (Adds (low (place_of way.now) ++ lease client (place_of way.now) ++ quotas (place_of way.now)) self.old self.new) }
    {
        self.add_file(client, way)?;
        self.add_quotas(way)
    }

    // Adds what a row locks that is removed.
    fn add_removed(&mut self, way: &Way) -> Result<(), NoMemory>
        ensures { OnOk result (Adds (low (place_of way.now) ++ where_so (is_whole (place_of way.now)) (parent (place_of way.now) ++ writer_lease (place_of way.now) ++ quotas (place_of way.now))) self.old self.new) }
    {
        self.add_low(way)?;
        if !way.is_whole() {
            return Ok(());
        }
        self.add_parent(way)?;
        self.add_writer_lease(way)?;
        self.add_quotas(way)
    }

    // Adds what the path's own directory locks whose quota is set.
    fn add_new_quota(&mut self, way: &Way) -> Result<(), NoMemory>
        ensures { OnOk result (Adds (low (place_of way.now) ++ map (λ (row : Inode). Quota row.id) (own_dir (place_of way.now))) self.old self.new) }
    {
        self.add_low(way)?;
        match way.own_dir() {
            Some(row) => self.add(Key::Quota(row.id)),
            None => Ok(()),
        }
    }

    // Adds what the path's own directory locks whose quota is told.
    fn add_own_quota(&mut self, way: &Way) -> Result<(), NoMemory>
        ensures { OnOk result (Adds (low (place_of way.now) ++ flat_map (λ (row : Inode). where_so row.has_quota (Quota row.id ∷ [])) (own_dir (place_of way.now))) self.old self.new) }
    {
        self.add_low(way)?;
        match way.own_dir() {
            Some(row) => self.add_quota(row),
            None => Ok(()),
        }
    }

    // Adds the key of the last row.
    fn add_low(&mut self, way: &Way) -> Result<(), NoMemory>
        ensures { OnOk result (Adds (low (place_of way.now)) self.old self.new) }
    {
        self.add_copy(&way.last.0)
    }

    // Adds the key of the row above the path's own.
    fn add_parent(&mut self, way: &Way) -> Result<(), NoMemory>
        ensures { OnOk result (Adds (parent (place_of way.now)) self.old self.new) }
    {
        if !way.is_whole() {
            return Ok(());
        }
        match way.above.last() {
            Some((key, _)) => self.add_copy(key),
            None => Ok(()),
        }
    }

    // Adds the key of the first missing name.
    fn add_next(&mut self, way: &Way) -> Result<(), NoMemory>
        ensures { OnOk result (Adds (next (place_of way.now)) self.old self.new) }
    {
        match way.missing {
            Some(key) => self.add_copy(key),
            None => Ok(()),
        }
    }

    // Adds the quota keys of the rows found that have a quota.
    fn add_quotas(&mut self, way: &Way) -> Result<(), NoMemory>
        ensures { OnOk result (Adds (quotas (place_of way.now)) self.old self.new) }
    {
        for (_, row) in way.above {
            self.add_quota(row)?;
        }
        self.add_quota(&way.last.1)
    }

    // Adds the quota key of a row, where it has a quota.
    fn add_quota(&mut self, row: &Inode) -> Result<(), NoMemory>
        ensures { OnOk result (Adds (where_so row.now.has_quota (Quota row.now.id ∷ [])) self.old self.new) }
    {
        if row.has_quota {
            return self.add(Key::Quota(row.id));
        }
        Ok(())
    }

    // Adds the lease key of a client for the path's file.
    fn add_lease(&mut self, client: ClientNo, way: &Way) -> Result<(), NoMemory>
        ensures { OnOk result (Adds (lease client (place_of way.now)) self.old self.new) }
    {
        match way.own_file() {
            Some(row) => self.add(Key::Lease(client, row.id)),
            None => Ok(()),
        }
    }

    // Adds the lease key of the one who writes the path's file.
    fn add_writer_lease(&mut self, way: &Way) -> Result<(), NoMemory>
        ensures { OnOk result (Adds (writer_lease (place_of way.now)) self.old self.new) }
    {
        let Some(row) = way.own_file() else {
            return Ok(());
        };
        match row.writer {
            Some(writer) => self.add(Key::Lease(writer, row.id)),
            None => Ok(()),
        }
    }

    // Adds a key again.
    fn add_copy(&mut self, key: &Key) -> Result<(), NoMemory>
        ensures { OnOk result (Adds (key.now ∷ []) self.old self.new) }
    {
        self.add(key.copy()?)
    }

    // Adds a key.
    fn add(&mut self, key: Key) -> Result<(), NoMemory>
        ensures { OnOk result (Adds (key ∷ []) self.old self.new) }
    {
        self.keys.push((key, self.mode))?;
        Ok(())
    }
}
