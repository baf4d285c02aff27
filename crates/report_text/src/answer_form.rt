//! How calls ended.

ghost use Rattle.std.specs.Prelude.{◌≡◌, IfOk, ◌∷◌, []};
ghost use Rattle.serde_json.specs.View.{view};
ghost use Rattle.script_text.specs.Json.{whole, word};
ghost use Rattle.script_text.specs.Built.{data_in};
ghost use Rattle.report_text.specs.Answers.{answer_data};

use crate::reply_form::reply_value;
use commit_log::{AnswerLine, CallEnd};
use hops_base::NoMemory;
use script_text::Row;
use serde_json::Value;
use std::alloc::Global;

/// The value of an answer: the client, its call and the end of it.
pub fn answer_value(alloc: Global, answer: &AnswerLine) -> Result<Value, NoMemory>
    ensures { IfOk result (λ value. view value ≡ answer_data answer.now) }
{
    let row = whose_row(alloc, answer)?;
    let row = match &answer.end {
        CallEnd::Done(note, reply) => {
            let reply = reply_value(alloc, reply)?;
            row.text("done")?.number(*note)?.with(reply)
        }
        CallEnd::Again(note) => row.text("again")?.number(*note),
        CallEnd::NoNamenode(note) => row.text("nonamenode")?.number(*note),
    }?;
    Ok(row.value())
}

// The word of an answer, the client and its call.
fn whose_row(alloc: Global, answer: &AnswerLine) -> Result<Row, NoMemory>
    ensures { IfOk result (λ row. data_in row ≡ word "answer" ∷ whole answer.now.client.0 ∷ whole answer.now.call ∷ []) }
{
    Row::of(alloc, "answer")?
        .number(u64::from(answer.client.0))?
        .number(u64::from(answer.call))
}
