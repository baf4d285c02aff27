//! The events that a file lists.

use hops_base::{ClientNo, Hint, ItemList, NodeNo, SessionId};

/// An event as a file lists it. Which events there are is this project's own.
#[derive(Debug, Drop)]
pub enum Listed {
    /// A client begins its call of this number in the script, from 1, at a namenode.
    Begin(ClientNo, u32, NodeNo),
    /// A session makes one step. These hints are handed to it; the core doesn't look at them yet.
    Advance(SessionId, ItemList<Hint>),
    /// A session is given up.
    Quit(SessionId),
    /// A namenode stops.
    Stop(NodeNo),
    /// A namenode beats.
    Beat(NodeNo),
    /// What stopped namenodes left is swept away.
    Sweep,
}
