//! `hops`, the program: it reads a script from standard input, runs it and writes its report.
//!
//! It stands on `hops_core` for the sessions that carry out calls, on `commit_log` for the book, and on `script_text`
//! and `report_text` for the texts. It promises on [`top`] that what is written is the report of a script's run,
//! whose book, answers and tree tell one legal history of a plain namespace, with sound locks: each session
//! holds a key for every path of its call as it answers, and nobody is met; which words are a command; that
//! each failure of a device has its cause; that too large an input is told exactly; that bytes which are no
//! script are answered by their first fault; and that a script is answered as not built exactly where it
//! needs what isn't, which is named.
#![tactic(auto)]

ghost use Rattle.std.specs.Prelude.{◌≡◌, ◌≤◌, Ok, map, IfOk};
ghost use Rattle.hops_base.specs.Devices.{Stock};
ghost use Rattle.hops_cli.specs.declared.words.Command.TheVariants.{Run, Gen};
ghost use Rattle.std.specs.String.{string_bytes};
ghost use Rattle.hops_cli.specs.Ends.{Ends, generated_line};
ghost use Rattle.hops_cli.specs.Built.{IsBuilt};
ghost use Rattle.hops_cli.specs.Run.{IsReportOf};
ghost use Rattle.hops_cli.specs.Words.{asked_by};
ghost use Rattle.name_space.specs.Script.{most_clients};
ghost use Rattle.script_text.specs.Generator.{most_generated_calls};

mod built;
mod engine;
mod status;
mod turn;
mod words;

use built::unbuilt;
use hops_base::{NoMemory, Sink, Source};
use program_io::{GivenOut, InputSource, OutputSink, TakenIn, give_all, take_all, words_given};
use report_text::{Report, write_report};
use script_text::{Script, ScriptError, generate, read_script, write_script};
pub use status::Status;
use std::alloc::Global;
use std::process::ExitCode;
use words::{Command, asked_by};

// The most bytes of a script.
const SCRIPT_LIMIT: usize = 16_777_216;

/// What the program does with these words after its name.
pub fn top<S: Source, W: Sink>(
    alloc: Global,
    words: &[String],
    source: &mut S,
    sink: &mut W,
) -> Status
    ensures { Ends (asked_by (map string_bytes words.now)) result (S.stock source.old) (S.stock source.new) (W.store sink.old) (W.store sink.new) }
{
    match asked_by(words) {
        Ok(Command::Run) => run_script(alloc, source, sink),
        Ok(
            Command::Gen {
                seed,
                clients,
                calls,
            },
        ) => make_script(alloc, seed, clients, calls, sink),
        Err(place) => Status::Usage(place),
    }
}

/// Reads a script from the source to its end, runs it and writes the report to the sink.
pub fn run_script<S: Source, W: Sink>(alloc: Global, source: &mut S, sink: &mut W) -> Status
    ensures { Ends (Ok Run) result (S.stock source.old) (S.stock source.new) (W.store sink.old) (W.store sink.new) }
{
    let bytes = match take_all(alloc, source, SCRIPT_LIMIT) {
        TakenIn::All(bytes) => bytes,
        TakenIn::TooLarge => return Status::TooLarge,
        TakenIn::Failed => return Status::ReadFault,
        TakenIn::NoMemory => return Status::NoMemory,
    };
    let script = match read_script(alloc, &bytes) {
        Ok(script) => script,
        Err(ScriptError::Bad(fault)) => return Status::BadScript(fault),
        Err(ScriptError::NoMemory) => return Status::NoMemory,
    };
    if let Some((client, call)) = unbuilt(&script) {
        return Status::Unbuilt { client, call };
    }
    let Ok(text) = run_report(alloc, script) else {
        return Status::NoMemory;
    };
    match give_all(sink, &text) {
        GivenOut::All => Status::Done,
        GivenOut::Failed => Status::WriteFault,
        GivenOut::NoMemory => Status::NoMemory,
    }
}

/// Writes the script of this seed, of so many clients with so many calls each, in its canonical text, and a
/// newline to the sink.
pub fn make_script<W: Sink>(
    alloc: Global,
    seed: u32,
    clients: u32,
    calls: u32,
    sink: &mut W,
) -> Status
    requires some { 1 ≤ clients }
    requires few { clients ≤ most_clients }
    requires short { calls ≤ most_generated_calls }
    ensures { (stock : Stock) → Ends (Ok (Gen seed clients calls)) result stock stock (W.store sink.old) (W.store sink.new) }
{
    let Ok(text) = generated_text(alloc, seed, clients, calls) else {
        return Status::NoMemory;
    };
    match give_all(sink, &text) {
        GivenOut::All => Status::Done,
        GivenOut::Failed => Status::WriteFault,
        GivenOut::NoMemory => Status::NoMemory,
    }
}

// The canonical text of the script, and a newline.
fn generated_text(alloc: Global, seed: u32, clients: u32, calls: u32) -> Result<Vec<u8>, NoMemory>
    requires some { 1 ≤ clients }
    requires few { clients ≤ most_clients }
    requires short { calls ≤ most_generated_calls }
    ensures { IfOk result (λ text. text.items ≡ generated_line seed clients calls) }
{
    let script = generate(alloc, seed, clients, calls)?;
    let mut text = write_script(alloc, &script)?;
    text.push(b'\n')?;
    Ok(text)
}

// The report of the run of the script.
fn run_report(alloc: Global, script: Script) -> Result<Vec<u8>, NoMemory>
    requires { IsBuilt script }
    ensures { IfOk result (λ text. IsReportOf script text.items) }
{
    let ran = engine::run(alloc, &script)?;
    let report = Report::new(script, ran.book, ran.answers, ran.tree);
    write_report(alloc, &report)
}

fn main(rt: HostRuntime) -> ExitCode {
    let status = match answer(&rt) {
        Ok(status) => status,
        Err(NoMemory) => Status::NoMemory,
    };
    if status.number() != 0 {
        let _ = rt.eprintln(status);
    }
    ExitCode::from(status.number())
}

// Does what the words say, over standard input and output.
fn answer(rt: &HostRuntime) -> Result<Status, NoMemory> {
    let words = words_given(rt, rt.alloc())?;
    let mut source = InputSource::new(rt.alloc(), rt.stdin())?;
    let mut sink = OutputSink::new(rt.stdout());
    Ok(top(rt.alloc(), &words, &mut source, &mut sink))
}

#[cfg(test)]
mod tests;
#[cfg(test)]
mod vectors;
