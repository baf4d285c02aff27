//! `stat`.

ghost use Rattle.std.specs.Prelude.{◌≤◌, length, IfOk};
ghost use Rattle.inode_ops.specs.Steps.{AnswersStat};

use crate::place::{deepest, is_whole};
use crate::told::{refused, told};
use db_state::{Outcome, Place, status_of};
use hops_base::NoMemory;
use name_space::{Exception, Reply};
use std::alloc::Global;

/// Tells the status of the path, or that it is missing.
pub fn stat(alloc: Global, place: &Place) -> Result<Outcome, NoMemory>
    requires { 1 ≤ length place.now.found.items }
    ensures { IfOk result (AnswersStat place.now) }
{
    if !is_whole(place) {
        return refused(alloc, Exception::FileNotFound);
    }
    told(alloc, Reply::Status(status_of(deepest(place))?))
}
