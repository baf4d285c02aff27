//! The quotas of directories and their table.
//!
//! It stands on `name_space` for the quota rule and on `row_store` for the table. It promises that
//! [`QuotaRow::fits`] is the quota rule exactly, and that `add` and `sub` change what is used and nothing
//! else. None of them takes memory. [`QuotaTable`] is `row_store`'s table at quota rows, with all that it
//! promises.
#![tactic(auto)]

mod quota;
#[cfg(test)]
mod tests;

pub use quota::{Fit, QuotaRow, QuotaTable};
