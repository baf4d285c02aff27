//! Giving a whole text to a sink.

ghost use Rattle.program_io.specs.Transfer.{GivesOut};

use hops_base::{Given, Sink};

/// What came of giving a text out.
#[derive(Clone, Copy, Debug, PartialEq, Eq)]
pub enum GivenOut {
    /// The sink took all of it.
    All,
    /// The sink failed; it has taken a front of the text.
    Failed,
    /// Memory ran out; the sink has taken a front of the text.
    NoMemory,
}

/// Gives the text to the sink, in pieces as large as the sink takes them, to its end or the first fault.
pub fn give_all<W: Sink>(sink: &mut W, text: &[u8]) -> GivenOut
    ensures { GivesOut text.now result (W.store sink.old) (W.store sink.new) }
{
    let mut written = 0;
    while written < text.len() {
        match sink.give(&text[written..]) {
            Given::Took(count) => written += count,
            Given::Failed => return GivenOut::Failed,
            Given::NoMemory => return GivenOut::NoMemory,
        }
    }
    GivenOut::All
}
