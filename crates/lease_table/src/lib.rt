//! The leases of writers, the last replies of clients, and their table.
//!
//! It stands on `name_space` for replies and on `row_store` for the table. It promises that [`LeaseTable`]
//! is two finite maps, one of lease rows and one of reply rows, and that a call for one of them leaves the
//! other as it was. [`LeaseTable::holds`] and [`LeaseTable::reply`] look up by the client. Making keys
//! ready is all that takes memory.
#![tactic(auto)]

mod lease;
mod reply;
mod table;
#[cfg(test)]
mod tests;

pub use lease::LeaseRow;
pub use reply::ReplyRow;
pub use table::LeaseTable;
