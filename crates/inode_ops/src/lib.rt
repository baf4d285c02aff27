//! What the calls on inodes do: `mkdirs`, `create`, `stat`, `list`, `delete` without recursion, and `chmod`.
//!
//! It stands on `db_state` and `quota_table`. It promises that [`outcome`] computes from the view alone: given
//! consistent tables and a current view, it replies as the plain call does; after its writes the rows represent the call's
//! namespace, have the ids of the history from the top of the path downwards, and are counted by their quota rows. A
//! refusal and a call that only looks write nothing. Whenever the view is current, the writes are of keys that the call locks
//! or of names in new directories, and keep the rows that other sessions have read; worked examples of the last are functions
//! with empty bodies in `examples`.
#![tactic(auto)]

mod calls;
mod chmod;
mod create;
mod delete;
mod directories;
pub mod examples;
pub mod laws;
mod list;
mod place;
mod quotas;
mod status;
#[cfg(test)]
mod tests;
mod told;

pub use calls::outcome;
