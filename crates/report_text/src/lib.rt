//! Reports and their texts.
//!
//! It stands on `hops_base`, `name_space`, `commit_log`, `script_text` and `serde_json`, and its proofs on
//! `json` too. It says which bytes are the report of a script, a book, answers and a namespace, and shows
//! that these bytes are of no other report.
//!
//! It promises that [`report_of`] and [`write_report`] give those very bytes, for every kind of note, key,
//! cause, answer, reply, refusal and entry, or want memory; and that a [`Report`] has one answer for each
//! call of its script, by client and call, and paths that rise strictly from `/`. A report is written in one
//! pass into one buffer. Another text that has such lines adds them by [`add_notes`], [`add_places`] and [`add_line`].
#![tactic(auto)]

mod answer_form;
mod entry_form;
pub mod examples;
mod key_form;
pub mod laws;
mod lines;
mod note_form;
mod reply_form;
mod report;
#[cfg(test)]
mod tests;

pub use lines::{add_counts, add_line, add_notes, add_places};
pub use reply_form::reply_value;
pub use report::{AnswerList, Report, TreeList, report_of, write_report};
