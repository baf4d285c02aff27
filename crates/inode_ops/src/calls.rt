//! The calls on inodes.

ghost use Rattle.std.specs.Prelude.{IfOk};
ghost use Rattle.db_state.specs.Effects.{KeepsOthers};
ghost use Rattle.db_state.specs.Locked.{WritesOwn};
ghost use Rattle.inode_ops.specs.Outcomes.{IsViewOf};
ghost use Rattle.db_state.specs.CallsTable.{IsCallsTable};

use crate::chmod::chmod;
use crate::create::create;
use crate::delete::delete;
use crate::directories::mkdirs;
use crate::list::list;
use crate::place::only_place;
use crate::status::stat;
use db_state::{Outcome, View};
use hops_base::{ClientNo, NoMemory, User};
use name_space::Call;
use std::alloc::Global;

/// The reply to this client's and user's call, and the rows to write, from what the view has. Given consistent tables and
/// a current view, it replies as the plain call does; after its writes the rows represent the call's namespace. They are
/// none where the call is refused or only looks. Whenever the view is current, they are of keys that the call locks or of
/// names in new directories, and keep the rows that other sessions have read. It writes nothing itself, and its one error is
/// want of memory.
pub fn outcome(
    alloc: Global,
    view: &View,
    client: ClientNo,
    user: &User,
    call: &Call,
) -> Result<Outcome, NoMemory>
    requires { IsViewOf view.now call.now }
    ensures table { IfOk result (IsCallsTable view.now client user.now call.now) }
    ensures own { IfOk result (WritesOwn view.now client call.now) }
    ensures keeps { IfOk result (KeepsOthers view.now client call.now) }
{
    let place = only_place(view);
    match call {
        Call::Create(path, overwrite) => create(alloc, view, client, user, path, *overwrite),
        Call::List(path) => list(alloc, view, path),
        Call::Delete(path, _) => delete(alloc, view, path),
        Call::Chmod(path, mode) => chmod(alloc, view, path, *mode),
        Call::Mkdirs(_) => mkdirs(alloc, place, view.quotas.as_slice(), view.next, user),
        Call::Stat(_) => stat(alloc, place),
        _ => unreachable!(),
    }
}
