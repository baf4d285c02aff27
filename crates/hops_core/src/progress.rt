//! What is told of a session's step.

use name_space::Reply;

/// What a session's step came to.
#[derive(Debug, Drop)]
pub enum Progress {
    /// There is more to do.
    More,
    /// It met a conflict; the note of this number, just written, names it.
    Met(u64),
    /// Its call is answered, by the note of this number, with this reply.
    Done(u64, Reply),
    /// Its namenode is gone; it names the first note after its opening that says so. No namenode is gone yet.
    Fenced(u64),
    /// Memory ran out. All is as before.
    NoMemory,
}
