//! The book: the list of all that happened, from which everything that is claimed of a run is told.
//!
//! It stands on `hops_base` and `name_space`. It promises that a push with room appends one note and
//! takes no memory, and that the notes can be read by their numbers, which count from 0. A book answers for
//! itself: which of its notes tell the history, which locks are held before a note, and which flags are
//! set there, each exactly by its definition. Laws and worked books show what the words mean by which a
//! book is judged.
#![tactic(auto)]

mod answer;
mod book;
pub mod examples;
mod flagged;
mod held;
mod journal;
pub mod laws;
mod note;
mod places;
#[cfg(test)]
mod tests;

pub use answer::{AnswerLine, CallEnd};
pub use book::Book;
pub use note::{Cause, Ended, Note, Work};
