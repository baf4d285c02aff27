//! Taking in all that a source has.

ghost use Rattle.std.specs.Prelude.{◌<◌, ◌^◌};
ghost use Rattle.program_io.specs.Transfer.{IsTakenIn};

use hops_base::{Source, Taken};
use std::alloc::Global;

/// What came of taking in a source.
#[derive(Drop)]
pub enum TakenIn {
    /// All its bytes.
    All(Vec<u8>),
    /// It has more bytes than it may have.
    TooLarge,
    /// It failed.
    Failed,
    /// Memory ran out.
    NoMemory,
}

/// Takes all bytes of a source that may have so many, to its end. It never takes more than one byte past
/// that, and ends at the first fault.
pub fn take_all<S: Source>(alloc: Global, source: &mut S, limit: usize) -> TakenIn
    requires { limit < 2 ^ 32 }
    ensures { IsTakenIn limit result (S.stock source.old) (S.stock source.new) }
{
    let mut bytes = Vec::new(alloc);
    while bytes.len() <= limit {
        let room = limit + 1 - bytes.len();
        match source.take(&mut bytes, room) {
            Taken::Got(_) => {}
            Taken::End => return TakenIn::All(bytes),
            Taken::Failed => return TakenIn::Failed,
            Taken::NoMemory => return TakenIn::NoMemory,
        }
    }
    TakenIn::TooLarge
}
