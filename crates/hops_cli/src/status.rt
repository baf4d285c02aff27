//! How the program ends.

ghost use Rattle.std.specs.Prelude.{◌≡◌};
ghost use Rattle.hops_cli.specs.Status.{status_number};

use script_text::ScriptFault;
use std::fmt;

/// What the program answers: its exit status, and what it says on standard error.
#[derive(Clone, Copy, Debug, PartialEq, Eq)]
pub enum Status {
    /// The work is done.
    Done,
    /// The words are no command. It names the place of the first bad word, or how many words there are
    /// where one is missing.
    Usage(u64),
    /// The bytes are no script. It names the first rule that they break, and where.
    BadScript(ScriptFault),
    /// The source failed.
    ReadFault,
    /// The sink failed.
    WriteFault,
    /// The source has more bytes than a script may have.
    TooLarge,
    /// Memory ran out.
    NoMemory,
    /// The script needs a part that isn't built yet. It names client 0 and call 0 where its counts of clients or
    /// namenodes or its stops aren't built, and else the first call of a kind that isn't, by its client and
    /// its number from 1 on.
    Unbuilt { client: u32, call: u32 },
}

impl Status {
    /// The exit status.
    pub fn number(&self) -> u8
        ensures { result ≡ status_number self.now }
    {
        match self {
            Status::Done => 0,
            Status::Usage(_) => 2,
            Status::BadScript(_) => 3,
            Status::ReadFault => 4,
            Status::WriteFault => 5,
            Status::TooLarge => 6,
            Status::NoMemory => 7,
            Status::Unbuilt { .. } => 8,
        }
    }
}

impl fmt::Display for Status {
    fn fmt<W: fmt::Write>(&self, f: &mut fmt::Formatter<W>) -> fmt::Result {
        match self {
            Status::Done => write!(f, "hops: done"),
            Status::Usage(place) => write!(
                f,
                "hops: usage: run, gen SEED CLIENTS CALLS; word {place}"
            ),
            Status::BadScript(fault) => {
                let ScriptFault { rule, at, call, .. } = fault;
                write!(f, "hops: bad script, rule {rule}, at {at}, call {call}")
            }
            Status::ReadFault => write!(f, "hops: read fault"),
            Status::WriteFault => write!(f, "hops: write fault"),
            Status::TooLarge => write!(f, "hops: input too large"),
            Status::NoMemory => write!(f, "hops: out of memory"),
            Status::Unbuilt { client, call } => {
                write!(f, "hops: not built yet, client {client}, call {call}")
            }
        }
    }
}
