//! `delete` of a file or of an empty directory.

ghost use Rattle.std.specs.Prelude.{false, IfOk};
ghost use Rattle.name_space.specs.declared.call.Call.TheVariants as call;
ghost use Rattle.db_state.specs.Current.{SpellsPlace};
ghost use Rattle.inode_ops.specs.DeleteSteps.{RemovesLast, AnswersDelete};
ghost use Rattle.inode_ops.specs.Outcomes.{IsViewOf, IsTableOf, IsOwnOf, IsKeptOf};

use crate::place::{is_whole, only_place};
use crate::quotas::{Change, recount};
use crate::told::{refused, told};
use db_state::{Outcome, Place, View, Writes};
use hops_base::{InodeId, Key, NoMemory, Path};
use name_space::{Exception, Reply};
use quota_table::QuotaRow;
use std::alloc::Global;

/// Removes what stands at the path, unless that is the root or a directory with a child. The reply tells
/// whether there was something to remove, or refuses a directory with a child. Its one error is want of
/// memory.
pub fn delete(alloc: Global, view: &View, path: &Path) -> Result<Outcome, NoMemory>
    requires { IsViewOf view.now (call.Delete path.now false) }
    ensures table { IfOk result (IsTableOf view.now (call.Delete path.now false)) }
    ensures own { IfOk result (IsOwnOf view.now (call.Delete path.now false)) }
    ensures keeps { IfOk result (IsKeptOf view.now (call.Delete path.now false)) }
{
    let place = only_place(view);
    delete_at(alloc, place, view.quotas.as_slice())
}

// Removes the row of the place's path, where it may go.
fn delete_at(
    alloc: Global,
    place: &Place,
    quotas: &[(InodeId, QuotaRow)],
) -> Result<Outcome, NoMemory>
    requires { SpellsPlace place.now }
    ensures { IfOk result (AnswersDelete place.now quotas.now) }
{
    if place.path.len() == 0 || !is_whole(place) {
        return told(alloc, Reply::Truth(false));
    }
    if place.has_child {
        return refused(alloc, Exception::PathIsNotEmptyDirectory);
    }
    let writes = removal(alloc, place, quotas)?;
    Ok(Outcome::Answer(Reply::Truth(true), writes))
}

// Removes the last row found with its quota row, and counts it no more in those of the directories above.
fn removal(alloc: Global, place: &Place, quotas: &[(InodeId, QuotaRow)]) -> Result<Writes, NoMemory>
    requires { SpellsPlace place.now }
    ensures { IfOk result (λ writes. RemovesLast place.now quotas.now writes.items) }
{
    let Some(((key, row), above)) = place.found.as_slice().split_last() else {
        unreachable!()
    };
    let mut writes = Writes::new(alloc);
    writes.reserve(2)?;
    writes.push((key.copy()?, None));
    if row.has_quota {
        writes.push((Key::Quota(row.id), None));
    }
    recount(&mut writes, above, quotas, Change::Less(1, row.bytes()))?;
    Ok(writes)
}
