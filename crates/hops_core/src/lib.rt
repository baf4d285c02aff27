//! Sessions and events: one event is one atomic step.
//!
//! It stands on `db_state` for what is kept, and on `path_resolver`, `chain_check` and `inode_ops` for a session's steps. It
//! promises on [`Core`] that an event opens a session, makes at most one step of one, or ends one, and which step that is: a
//! session reads one row or takes one key at a time, reads again what it had found before it answers, and answers as the plain
//! call does in the namespace that the book leads to, while it holds every key that its call locks by the rows as they are;
//! each conflict that it meets stood in the tables at that step; and what always holds of all that the core keeps holds after
//! every event of every list ([`run_events`]).
#![tactic(auto)]

mod begin_fault;
mod built;
mod commit;
mod event;
mod lock;
mod progress;
mod read;
mod shared;
mod step;
mod view;

pub use begin_fault::BeginFault;
pub use built::is_built;
pub use event::{Event, EventAnswer, happen, run_events, try_advance, try_begin, try_quit};
pub use progress::Progress;
pub use shared::Core;
