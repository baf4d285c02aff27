//! The holders of one key. No session holds it twice.

ghost use Rattle.std.specs.Prelude.{◌≡◌, None};
ghost use Rattle.row_locks.specs.Holders.{mode_in, others_in_the_way, is_in_the_way, least_after, lesser, without};

use hops_base::{Mode, SessionId};

/// A session that holds a key, and how it holds it.
#[derive(Clone, Copy, Debug)]
pub struct Holder {
    pub session: SessionId,
    pub mode: Mode,
}

/// The mode in which the session holds the key. None where it doesn't hold it.
pub fn mode_in(holders: &[Holder], s: SessionId) -> Option<Mode>
    ensures { result ≡ mode_in holders.now s }
{
    for holder in holders {
        if holder.session == s {
            return Some(holder.mode);
        }
    }
    None
}

/// The least other session that holds the key in a mode that conflicts. None where there is none.
pub fn least_in_the_way(holders: &[Holder], s: SessionId, mode: Mode) -> Option<SessionId>
    ensures { result ≡ least_after None (others_in_the_way holders.now s mode) }
{
    let mut least = None;
    for holder in holders {
        if is_in_the_way(holder, s, mode) {
            least = Some(lesser(least, holder.session));
        }
    }
    least
}

// The lesser of a session and the one that was found before it, if any.
fn lesser(found: Option<SessionId>, s: SessionId) -> SessionId
    ensures { result ≡ lesser found s }
{
    match found {
        Some(other) if other < s => other,
        _ => s,
    }
}

// Whether the holder keeps the session from the key.
fn is_in_the_way(holder: &Holder, s: SessionId, mode: Mode) -> bool
    ensures { result ≡ is_in_the_way s mode holder.now }
{
    holder.session != s && mode.conflicts(holder.mode)
}

/// Takes a session out of the holders of a key.
pub fn drop_session(holders: &mut Vec<Holder>, s: SessionId)
    ensures { holders.new.items ≡ without holders.old.items s }
{
    holders.retain(|holder| holder.session != s);
}
