//! What clients were answered in the end.

use hops_base::ClientNo;
use name_space::Reply;

/// The answer to a client's call of this number, which counts from 1. This project's own.
#[derive(Debug, Drop)]
pub struct AnswerLine {
    pub client: ClientNo,
    pub call: u32,
    pub end: CallEnd,
}

/// How a call ended. Each end names the note on which it rests.
#[derive(Debug, Drop)]
pub enum CallEnd {
    /// The note is the call's Did, with this reply.
    Done(u64, Reply),
    /// It gave up at the conflict of the note, without a reply. A delete that was cut off may have removed a
    /// part.
    Again(u64),
    /// No namenode was left to tell a reply; the note says that one had stopped.
    NoNamenode(u64),
}
