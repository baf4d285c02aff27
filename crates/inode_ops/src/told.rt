//! Answers that write nothing.

ghost use Rattle.std.specs.Prelude.{IfOk};
ghost use Rattle.inode_ops.specs.Steps.{IsTold, IsRefused};

use db_state::{Outcome, Writes};
use hops_base::NoMemory;
use name_space::{Exception, Reply};
use std::alloc::Global;

/// This is refused, and nothing written.
pub fn refused(alloc: Global, exception: Exception) -> Result<Outcome, NoMemory>
    ensures { IfOk result (IsRefused exception) }
{
    told(alloc, Reply::Refused(exception))
}

/// This is told, and nothing is written.
pub fn told(alloc: Global, reply: Reply) -> Result<Outcome, NoMemory>
    ensures { IfOk result (IsTold reply) }
{
    Ok(Outcome::Answer(reply, Writes::new(alloc)))
}
