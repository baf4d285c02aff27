//! What is told of events.

ghost use Rattle.std.specs.Prelude.{◌≡◌, true, IfOk};
ghost use Rattle.serde_json.specs.View.{view};
ghost use Rattle.script_text.specs.Json.{row};
ghost use Rattle.hops_core.specs.declared.event.EventAnswer.TheVariants.{Advanced};
ghost use Rattle.core_replay.specs.Told.{has_memory, progress_values, told_values, event_data};

use hops_base::NoMemory;
use hops_core::{BeginFault, EventAnswer, Progress};
use report_text::reply_value;
use script_text::Row;
use serde_json::Value;
use std::alloc::Global;

/// Whether there was memory for the event: its answer isn't that memory ran out.
pub fn has_memory(answer: &EventAnswer) -> bool
    ensures { result ≡ has_memory answer.now }
{
    match answer {
        EventAnswer::Refused(BeginFault::NoMemory) | EventAnswer::Advanced(Progress::NoMemory) => {
            false
        }
        _ => true,
    }
}

/// The value of the line that tells what came of the event at this place, from 0.
pub fn event_value(alloc: Global, place: u64, answer: &EventAnswer) -> Result<Value, NoMemory>
    requires { has_memory answer.now ≡ true }
    ensures { IfOk result (λ value. view value ≡ event_data place answer.now) }
{
    let told = answer_value(alloc, answer)?;
    let line = Row::of(alloc, "event")?.number(place)?.with(told)?;
    Ok(line.value())
}

fn answer_value(alloc: Global, answer: &EventAnswer) -> Result<Value, NoMemory>
    requires { has_memory answer.now ≡ true }
    ensures { IfOk result (λ value. view value ≡ row (told_values answer.now)) }
{
    match answer {
        EventAnswer::Skipped => Ok(Row::of(alloc, "skipped")?.value()),
        EventAnswer::Opened(s) => Ok(Row::of(alloc, "session")?.number(s.0)?.value()),
        EventAnswer::Refused(BeginFault::NodeGone(i)) => {
            Ok(Row::of(alloc, "nodegone")?.number(*i)?.value())
        }
        EventAnswer::Refused(BeginFault::NoMemory) => unreachable!(),
        EventAnswer::Advanced(progress) => progress_value(alloc, progress),
        EventAnswer::Ended => Ok(Row::of(alloc, "ok")?.value()),
    }
}

fn progress_value(alloc: Global, progress: &Progress) -> Result<Value, NoMemory>
    requires { has_memory (Advanced progress.now) ≡ true }
    ensures { IfOk result (λ value. view value ≡ row (progress_values progress.now)) }
{
    match progress {
        Progress::More => Ok(Row::of(alloc, "more")?.value()),
        Progress::Met(i) => Ok(Row::of(alloc, "met")?.number(*i)?.value()),
        Progress::Done(i, reply) => {
            let reply = reply_value(alloc, reply)?;
            Ok(Row::of(alloc, "done")?.number(*i)?.with(reply)?.value())
        }
        Progress::Fenced(i) => Ok(Row::of(alloc, "fenced")?.number(*i)?.value()),
        Progress::NoMemory => unreachable!(),
    }
}
