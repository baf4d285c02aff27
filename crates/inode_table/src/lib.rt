//! The inodes and their table.
//!
//! It stands on `hops_base` for ids and users and on `row_store` for the table. It promises that
//! [`Inode::copy`] gives the same inode again and [`Inode::bytes`] the bytes that it counts.
//! [`InodeTable`] is `row_store`'s table at inodes, with all that it promises.
#![tactic(auto)]

mod inode;
#[cfg(test)]
mod tests;

pub use inode::{Inode, InodeTable, Kind};
