//! The last reply to a client.

use name_space::Reply;

/// The row that keeps what a client was last answered, so that a call whose reply was lost is answered
/// again and not carried out again. The client stands in its key. This project's own.
#[derive(Debug, Drop)]
pub struct ReplyRow {
    /// The number of the call.
    pub seq: u32,
    /// The number of the note that answers it.
    pub note: u64,
    /// What it was answered.
    pub reply: Reply,
}
