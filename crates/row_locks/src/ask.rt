//! What a session that asks for a lock is told.

use hops_base::SessionId;

/// The answer to a session that asks for a lock. This project's own.
#[derive(Clone, Copy, Debug, PartialEq, Eq)]
pub enum Ask {
    /// Nobody was in the way, and the session holds the key now.
    Held,
    /// This session, the least of those that do, holds the key in a mode that conflicts.
    Busy(SessionId),
    /// Nobody was in the way, but memory ran out.
    NoMemory,
}
