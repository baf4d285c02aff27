//! The calls of HDFS clients, what is answered to them, and what a namespace holds.
//!
//! It stands on `hops_base`. It promises that [`Call::is_valid`] is exactly the ranges that the numbers and paths of a call
//! must keep, that [`Call::changes`] is false exactly for the three calls that only look, and that [`Call::word`] is the
//! call's word. What each call answers on which namespace is defined in `specs/`, by the rules of each call; `docs/TRUSTED.md`
//! lists which of these definitions the program's claim rests on. [`laws`] says what is so of all namespaces and calls, by
//! functions with empty bodies, and [`examples`] has worked examples that pin each definition. The lemmas of both, and what
//! stands at each path after a change, are in `proofs/`, for this crate and those above it.
#![tactic(auto)]

mod call;
mod entry;
pub mod examples;
pub mod laws;
mod reply;
#[cfg(test)]
mod tests;

pub use call::{Call, MOST_GROWN, MOST_MODE, MOST_QUOTA, OpKind};
pub use entry::{DIR_MODE, Entry, FILE_MODE, FileStatus, Listed, Listing, copy_listing};
pub use reply::{Exception, Reply, Why};
