//! What can happen.

use hops_base::{ClientNo, Key, Mode, NodeNo, OpId, Path, PathList, SessionId};
use name_space::{Call, OpKind, Reply};

/// One thing that happened. A commit is a `Wrote` or a `Did`. This project's own.
#[derive(Debug, Drop)]
pub enum Note {
    /// The session is opened for this client's call of this number at this namenode.
    Open(SessionId, ClientNo, u32, NodeNo),
    /// The session holds the key in this mode.
    Took(SessionId, Key, Mode),
    /// All locks of the session are given back.
    Gave(SessionId),
    /// The session has committed a step of a subtree operation.
    Wrote(SessionId, Work),
    /// The answering commit of the client's call of this number: the call, how many reads its resolutions
    /// made over all attempts, and the reply. It gives back all locks of the session, ends its flag and ends
    /// the session.
    Did(SessionId, ClientNo, u32, Call, u64, Reply),
    /// These paths below the operation's path, in their order, are removed from the history's namespace.
    Cut(OpId, Path, PathList),
    /// The session met a conflict with others.
    Met(SessionId, Cause),
    /// The namenode is gone, and with it the locks of its sessions opened before.
    Gone(NodeNo, Ended),
}

/// A step of a subtree operation.
#[derive(Debug, Drop)]
pub enum Work {
    /// The operation's flag is set at this path.
    Flag(OpId, OpKind, Path),
    /// One batch of the operation is removed.
    Batch(OpId),
    /// The operation, whose namenode is gone, is ended.
    Reclaim(OpId),
}

/// What a session met.
#[derive(Debug, Drop)]
pub enum Cause {
    /// The key that was asked for in this mode is held by the named session.
    Locked(Key, Mode, SessionId),
    /// The flag of another running operation was found.
    Flagged(OpId),
    /// A row that was read since the book had so many notes had changed.
    Changed(u64),
    /// The session's own operation was reclaimed. It ends the session.
    Lost(OpId),
}

/// How a namenode is gone.
#[derive(Clone, Copy, Debug, PartialEq, Eq)]
pub enum Ended {
    /// It has stopped for good.
    Stopped,
    /// It is no member any more, and its sessions opened before are void.
    Evicted,
}
