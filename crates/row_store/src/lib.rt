//! Rows by key.
//!
//! It stands on `hops_base` for the keys, and promises that [`Rows`] is a finite map from keys to rows
//! and a set of keys that are ready for one: that a key is made ready by `reserve` alone, which takes the
//! memory; that a row is put, taken and replaced without any; and that the rows below a parent are
//! counted and named exactly. [`Table`] is the same in the calls that the layers above make, once for
//! every kind of row.
#![tactic(auto)]

mod children;
mod rows;
mod slots;
mod table;
#[cfg(test)]
mod tests;

pub use rows::Rows;
pub use table::Table;
