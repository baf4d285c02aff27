//! How a session reads the rows above its locked ones again.
//!
//! It stands on `db_state`. It promises on [`reread_step`] that each step reads the next one row that is neither locked nor read
//! again, from the deepest of each path upwards; that Changed comes exactly where that row is missing or isn't as it was found;
//! and Current exactly where none is left after it. Then the session answers next, and what it has read stands until it has
//! committed or given its locks back: what always holds of all that the core keeps is kept by it. It takes no memory.
#![tactic(auto)]

mod passing;
mod reread;
mod row;
mod search;

pub use reread::{Reread, reread_step};
pub use row::is_same;
pub use search::last_free;
