//! Scripts and their texts.
//!
//! It stands on `hops_base`, `name_space`, `serde_json` and `thiserror`, and its proofs on `json` too. It
//! says which bytes are a text of which script, of other bytes which rule they break first and where, and
//! which script is generated for a seed. It shows that a text denotes at most one script, that bytes without a
//! fault denote one, that the text which is written for a script is one of its texts and of no other script,
//! and that what is generated is a script.
//!
//! It promises that [`read_script`] reads exactly the scripts, and tells of other bytes the first fault, or
//! wants memory; that a [`Script`] keeps its ranges; that [`write_script`] gives the very bytes of the one
//! text in which the script is written, which are read as that script, or wants memory; and that
//! [`generate`] gives the one script of a seed, or wants memory. [`Row`] and [`Fields`] build values of
//! JSON, whose members stand in the byte order of their keys. A text of which a script is a part is read by
//! [`read_value`] and [`script_in`], and by what looks into values: [`value_at`], [`values_in`] and their like.
#![tactic(auto)]

mod build;
mod call_form;
mod call_forms;
pub mod examples;
mod fault;
mod generator;
pub mod laws;
mod members;
mod read;
mod read_call;
mod read_stops;
mod script;
#[cfg(test)]
mod tests;
mod write;

pub use build::{Fields, Row};
pub use call_form::call_value;
pub use call_forms::{behind_name, name_of, values_in};
pub use fault::{ScriptError, ScriptFault};
pub use generator::generate;
pub use members::{Members, array_at, array_of, key_count, value_at};
pub use read::{read_script, read_value, script_in};
pub use script::{CallList, ClientCalls, ClientList, Script};
pub use write::{script_value, write_script};
