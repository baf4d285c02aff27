//! Why no session was opened.

/// Why a call's session wasn't opened. The call is counted as begun.
#[derive(Clone, Copy, Debug, PartialEq, Eq)]
pub enum BeginFault {
    /// The namenode has stopped; it names the note that says so. No namenode stops yet.
    NodeGone(u64),
    /// Memory ran out.
    NoMemory,
}
