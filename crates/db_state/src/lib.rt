//! All tables and the book in one value, and what calls see and change of them.
//!
//! It stands on `inode_table`, `quota_table` and `commit_log`. It promises that a commit takes all its memory before
//! its first write, so that it either writes its rows and its notes or changes nothing; that the rows and the book are
//! always consistent: the rows spell a tree that stands for the namespace to which the history in the book leads, with
//! the history's ids, and quota rows that count it; that [`tree_of`] is that namespace; and that [`Db::listing`] tells
//! the rows under a row, which are the children of its path. It says what a view must be to be current, which place the
//! rows have for a path, and what the outcome of a call promises. Laws of rows are functions with empty bodies in
//! `laws` and `row_laws`, and those of what sessions have read and hold in `read_laws`. For sessions that run beside each
//! other it says what is kept of them, what always holds of it, and which changes there are: a [`Db`] has a call for each
//! kind of change, and keeps what always holds; `core_laws` has the laws of it, and `core_examples` shows what the words mean.
#![tactic(auto)]

pub mod core_examples;
pub mod core_laws;
mod db;
mod directory;
pub mod laws;
mod listing;
pub mod move_examples;
mod outcome;
pub mod read_examples;
pub mod read_laws;
pub mod row_laws;
mod rows;
mod session;
mod sessions;
mod settings;
mod tables;
mod tree;
mod view;
mod writes;

pub use db::Db;
pub use directory::new_dir;
pub use listing::status_of;
pub use outcome::Outcome;
pub use session::{Phase, Position, Reads, Seat, Session, Stage, Trail};
pub use settings::Settings;
pub use tree::tree_of;
pub use view::{FoundList, Place, PlaceList, QuotaList, View};
pub use writes::{Row, Writes};
