//! The locks that sessions hold on rows, and the plans by which they take them.
//!
//! It stands on `hops_base` for sessions, keys and modes. It promises that a [`LockTable`] is a finite map
//! from sessions and keys to modes, whatever the order in which the locks were taken; that `ask` gives a
//! lock only where no other session holds the key in a mode that conflicts, and tells the least session
//! that does where one does; that `give_all` takes away the locks of one session and of no other; and that
//! a [`Plan`] has each wanted key once, rising, Exclusive where it is wanted so. [`laws`] says that no two
//! locks ever clash and that each question has one answer; [`examples`] shows what the words mean.
#![tactic(auto)]

mod ask;
pub mod examples;
mod holders;
pub mod laws;
mod lists;
mod plan;
mod table;
#[cfg(test)]
mod tests;

pub use ask::Ask;
pub use plan::Plan;
pub use table::LockTable;
