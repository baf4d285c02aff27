//! `chmod`.

ghost use Rattle.std.specs.Prelude.{◌≡◌, ◌≤◌, length, IfOk};
ghost use Rattle.name_space.specs.declared.call.Call.TheVariants as call;
ghost use Rattle.db_state.specs.Plan.{last_found};
ghost use Rattle.inode_ops.specs.ChmodSteps.{row_with_mode, IsModeSet};
ghost use Rattle.inode_ops.specs.Outcomes.{IsViewOf, IsTableOf, IsOwnOf, IsKeptOf};

use crate::place::{is_whole, only_place};
use crate::told::refused;
use db_state::{Outcome, Place, Row, View, Writes};
use hops_base::{NoMemory, Path};
use inode_table::Inode;
use name_space::{Exception, Reply, Why};
use std::alloc::Global;

/// Gives what stands at the path this mode, unless that is the root.
pub fn chmod(alloc: Global, view: &View, path: &Path, mode: u16) -> Result<Outcome, NoMemory>
    requires { IsViewOf view.now (call.Chmod path.now mode) }
    ensures table { IfOk result (IsTableOf view.now (call.Chmod path.now mode)) }
    ensures own { IfOk result (IsOwnOf view.now (call.Chmod path.now mode)) }
    ensures keeps { IfOk result (IsKeptOf view.now (call.Chmod path.now mode)) }
{
    let place = only_place(view);
    if path.len() == 0 {
        return refused(alloc, Exception::IO(Why::RootFixed));
    }
    if !is_whole(place) {
        return refused(alloc, Exception::FileNotFound);
    }
    set_mode(alloc, place, mode)
}

// Writes the last row found with this mode.
fn set_mode(alloc: Global, place: &Place, mode: u16) -> Result<Outcome, NoMemory>
    requires { 1 ≤ length place.now.found.items }
    ensures { IfOk result (IsModeSet (last_found place.now) mode) }
{
    let Some((key, inode)) = place.found.as_slice().last() else {
        unreachable!()
    };
    let mut writes = Writes::new(alloc);
    writes.reserve(1)?;
    writes.push((key.copy()?, Some(Row::Inode(with_mode(inode, mode)?))));
    Ok(Outcome::Answer(Reply::Truth(true), writes))
}

fn with_mode(inode: &Inode, mode: u16) -> Result<Inode, NoMemory>
    ensures { IfOk result (λ changed. changed ≡ row_with_mode mode inode.now) }
{
    let mut changed = inode.copy()?;
    changed.mode = mode;
    Ok(changed)
}
