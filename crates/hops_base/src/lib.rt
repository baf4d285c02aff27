//! The words that every layer speaks: ids, names, users, paths, keys, lists with room, and the
//! devices that bytes come from and go to.
//!
//! It stands on the standard library alone. It promises that [`Path::read`], [`Path::read_free`],
//! [`Name::read`] and [`User::read`] accept exactly their grammars, each refusal being the first by
//! the stated order with its place; that keys have one total order, in which they are locked; that a
//! list takes memory in `reserve` alone; and that a device fails only where its count of faults rose.
//! [`laws`] says how paths and their texts go together.
#![tactic(auto)]

mod devices;
mod hint;
mod ids;
mod item_list;
mod key;
pub mod laws;
mod memory;
mod memory_sink;
mod memory_source;
mod name;
mod path;
mod path_text;
#[cfg(test)]
mod tests;
mod user;

pub use devices::{Given, Sink, Source, Taken};
pub use hint::Hint;
pub use ids::{ClientNo, InodeId, Mode, NodeNo, OpId, SessionId};
pub use item_list::{IdList, ItemList, PathList, StopList, UserList};
pub use key::Key;
pub use memory::NoMemory;
pub use memory_sink::{MemSink, SteadySink};
pub use memory_source::{MemSource, SteadySource};
pub use name::{Name, NameFault};
pub use path::Path;
pub use path_text::PathFault;
pub use user::{User, UserFault};
