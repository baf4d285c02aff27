//! What comes of a call.

use crate::writes::Writes;
use name_space::{OpKind, Reply};

/// What a call does, computed from a view alone.
#[derive(Debug, Drop)]
pub enum Outcome {
    /// One commit answers it: the reply, and the rows that change.
    Answer(Reply, Writes),
    /// It needs a subtree operation of this kind.
    Subtree(OpKind),
}
