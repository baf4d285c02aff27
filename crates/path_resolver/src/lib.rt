//! How a session finds the rows of its call's path.
//!
//! It stands on `db_state`. It promises on [`resolve_step`] that each step reads the next one row by its key, below the last row
//! found; that a resolution comes to its end exactly at the first missing name, at a file, or at the end of the path; that only
//! the path `/` needs no read; that the rows found were rows of the table, each at its step; and that the session then has the
//! plan of its call's keys, each once and rising. What always holds of all that the core keeps is kept by it.
#![tactic(auto)]

mod keys;
mod read;
mod resolve;
mod step;
mod trail;
mod way;

pub use resolve::{Resolve, resolve_step};
