//! `replay`, the program: it reads a script and a list of events from standard input, makes the events one after another, and
//! writes what each wrote into the book and what came of it.
//!
//! It stands on `hops_core` for what an event does, on `script_text` and `report_text` for the texts, and on `program_io` for
//! bytes in and out. It promises on [`top`] that each line of notes and of an answer is the core's, event by event in their order;
//! that what always holds of the core holds after each of them; that the paths at the end are the namespace to which the book leads;
//! that bytes which are no input are answered by their first fault; and that each status has its cause.
#![tactic(auto)]

ghost use Rattle.std.specs.Prelude.{◌≡◌, [], map};
ghost use Rattle.std.specs.String.{string_bytes};
ghost use Rattle.core_replay.specs.Ends.{Ends};

mod calls;
mod event;
mod fault;
mod input;
mod listed;
mod replay;
mod status;
mod told;
mod unbuilt;

use fault::InputError;
use hops_base::{NoMemory, Sink, Source};
use input::read_input;
use program_io::{GivenOut, InputSource, OutputSink, TakenIn, give_all, take_all, words_given};
use replay::replay;
pub use status::Status;
use std::alloc::Global;
use std::process::ExitCode;
use unbuilt::first_unbuilt;

// The most bytes of an input.
const INPUT_LIMIT: usize = 67_108_864;

/// What the program does with these words after its name: it takes none.
pub fn top<S: Source, W: Sink>(
    alloc: Global,
    words: &[String],
    source: &mut S,
    sink: &mut W,
) -> Status
    ensures { Ends (map string_bytes words.now) result (S.stock source.old) (S.stock source.new) (W.store sink.old) (W.store sink.new) }
{
    match words {
        [] => replay_input(alloc, source, sink),
        _ => Status::Usage(0),
    }
}

/// Reads an input from the source to its end, makes its events and writes what they made to the sink.
pub fn replay_input<S: Source, W: Sink>(alloc: Global, source: &mut S, sink: &mut W) -> Status
    ensures { Ends [] result (S.stock source.old) (S.stock source.new) (W.store sink.old) (W.store sink.new) }
{
    let bytes = match take_all(alloc, source, INPUT_LIMIT) {
        TakenIn::All(bytes) => bytes,
        TakenIn::TooLarge => return Status::TooLarge,
        TakenIn::Failed => return Status::ReadFault,
        TakenIn::NoMemory => return Status::NoMemory,
    };
    let input = match read_input(alloc, &bytes) {
        Ok(input) => input,
        Err(InputError::Bad(fault)) => return Status::BadInput(fault),
        Err(InputError::NoMemory) => return Status::NoMemory,
    };
    let events = input.events.as_slice();
    if let Some(what) = first_unbuilt(&input.script, events) {
        return Status::NotBuilt(what);
    }
    let Ok(text) = replay(alloc, &input.script, events) else {
        return Status::NoMemory;
    };
    match give_all(sink, &text) {
        GivenOut::All => Status::Done,
        GivenOut::Failed => Status::WriteFault,
        GivenOut::NoMemory => Status::NoMemory,
    }
}

fn main(rt: HostRuntime) -> ExitCode {
    let status = match answer(&rt) {
        Ok(status) => status,
        Err(NoMemory) => Status::NoMemory,
    };
    if status.number() != 0 {
        let _ = rt.eprintln(status);
    }
    ExitCode::from(status.number())
}

// Does what the words say, over standard input and output.
fn answer(rt: &HostRuntime) -> Result<Status, NoMemory> {
    let words = words_given(rt, rt.alloc())?;
    let mut source = InputSource::new(rt.alloc(), rt.stdin())?;
    let mut sink = OutputSink::new(rt.stdout());
    Ok(top(rt.alloc(), &words, &mut source, &mut sink))
}

#[cfg(test)]
mod reading_tests;
#[cfg(test)]
mod tests;
#[cfg(test)]
mod vectors;
