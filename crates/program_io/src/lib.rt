//! What each program has of the process that it runs in: its words, and its bytes in and out.
//!
//! It stands on `hops_base` for sources and sinks. It promises that [`take_all`] takes what a source has in order, to its end, and
//! never more than one byte past the most that it may have; that [`give_all`] gives a sink the whole text, or a front of it where it
//! ends early; and that each ends at the first fault of its device and says which. [`InputSource`] and [`OutputSink`] are standard
//! input and output as such, and [`words_given`] has the words behind the program's name.
#![tactic(auto)]

mod give_out;
mod streams;
mod take_in;
mod words;

pub use give_out::{GivenOut, give_all};
pub use streams::{InputSource, OutputSink};
pub use take_in::{TakenIn, take_all};
pub use words::words_given;
