//! How the program ends.

ghost use Rattle.std.specs.Prelude.{◌≡◌};
ghost use Rattle.core_replay.specs.Status.{status_number};

use crate::fault::InputFault;
use crate::unbuilt::Unbuilt;
use std::fmt;

/// What the program answers: its exit status, and what it says on standard error.
#[derive(Clone, Copy, Debug, PartialEq, Eq)]
pub enum Status {
    /// The work is done.
    Done,
    /// There are words, and the program takes none. It names the place of the first.
    Usage(u64),
    /// The bytes are no input. It names the first rule that they break, and where.
    BadInput(InputFault),
    /// The source failed.
    ReadFault,
    /// The sink failed.
    WriteFault,
    /// The source has more bytes than an input may have.
    TooLarge,
    /// Memory ran out.
    NoMemory,
    /// The input needs a part that isn't built yet. It names the first.
    NotBuilt(Unbuilt),
}

impl Status {
    /// The exit status.
    pub fn number(&self) -> u8
        ensures { result ≡ status_number self.now }
    {
        match self {
            Status::Done => 0,
            Status::Usage(_) => 2,
            Status::BadInput(_) => 3,
            Status::ReadFault => 4,
            Status::WriteFault => 5,
            Status::TooLarge => 6,
            Status::NoMemory => 7,
            Status::NotBuilt(_) => 8,
        }
    }
}

impl fmt::Display for Status {
    fn fmt<W: fmt::Write>(&self, f: &mut fmt::Formatter<W>) -> fmt::Result {
        match self {
            Status::Done => write!(f, "replay: done"),
            Status::Usage(place) => write!(f, "replay: usage: no words; word {place}"),
            Status::BadInput(fault) => write!(f, "replay: {fault}"),
            Status::ReadFault => write!(f, "replay: read fault"),
            Status::WriteFault => write!(f, "replay: write fault"),
            Status::TooLarge => write!(f, "replay: input too large"),
            Status::NoMemory => write!(f, "replay: out of memory"),
            Status::NotBuilt(Unbuilt::Script) => write!(f, "replay: not built yet, script"),
            Status::NotBuilt(Unbuilt::Event(place)) => {
                write!(f, "replay: not built yet, event {place}")
            }
        }
    }
}
