//! What happened.

ghost use Rattle.std.specs.Prelude.{◌≡◌, IfOk, ◌∷◌, [], map};
ghost use Rattle.serde_json.specs.Data.{string};
ghost use Rattle.serde_json.specs.View.{view};
ghost use Rattle.commit_log.specs.declared.note.Note.TheVariants.{Did};
ghost use Rattle.script_text.specs.Json.{whole, row};
ghost use Rattle.script_text.specs.Form.{path_data};
ghost use Rattle.script_text.specs.Built.{data_in};
ghost use Rattle.report_text.specs.Notes.{note_data, work_data, cause_data, kind_data, ended_data};

use crate::key_form::{key_value, mode_letter};
use crate::reply_form::reply_value;
use commit_log::{Cause, Ended, Note, Work};
use hops_base::{ClientNo, NoMemory, Path, SessionId};
use name_space::{Call, OpKind, Reply};
use script_text::{Row, call_value};
use serde_json::Value;
use std::alloc::Global;

/// The value of the note of this number: the number, the word of its kind and its fields.
pub fn note_value(alloc: Global, number: u64, note: &Note) -> Result<Value, NoMemory>
    ensures { IfOk result (λ value. view value ≡ note_data number note.now) }
{
    let row = match note {
        Note::Open(session, client, call, node) => head_row(alloc, number, "open", session.0)?
            .number(u64::from(client.0))?
            .number(u64::from(*call))?
            .number(u64::from(node.0)),
        Note::Took(session, key, mode) => head_row(alloc, number, "took", session.0)?
            .with(key_value(alloc, key)?)?
            .text(mode_letter(*mode)),
        Note::Gave(session) => head_row(alloc, number, "gave", session.0),
        Note::Wrote(session, work) => {
            head_row(alloc, number, "wrote", session.0)?.with(work_value(alloc, work)?)
        }
        Note::Did(session, client, place, call, reads, reply) => {
            let whose = (*session, *client, *place);
            did_row(alloc, number, whose, call, *reads, reply)
        }
        Note::Cut(op, path, gone) => head_row(alloc, number, "cut", op.0)?
            .path(path)?
            .with(paths_value(alloc, gone.as_slice())?),
        Note::Met(session, cause) => {
            head_row(alloc, number, "met", session.0)?.with(cause_value(alloc, cause)?)
        }
        Note::Gone(node, ended) => {
            head_row(alloc, number, "gone", u64::from(node.0))?.text(ended_word(*ended))
        }
    }?;
    Ok(row.value())
}

// The number of a note, its word, and the number of the session, operation or namenode that it is of.
fn head_row(alloc: Global, number: u64, word: &str, of: u64) -> Result<Row, NoMemory>
    ensures { IfOk result (λ row. data_in row ≡ whole number ∷ string word.now ∷ whole of ∷ []) }
{
    Row::new(alloc).number(number)?.text(word)?.number(of)
}

// The fields of an answering commit, of this session, this client and its call of this number.
fn did_row(
    alloc: Global,
    number: u64,
    whose: (SessionId, ClientNo, u32),
    call: &Call,
    reads: u64,
    reply: &Reply,
) -> Result<Row, NoMemory>
    ensures { IfOk result (λ made. row (data_in made) ≡ note_data number (Did whose.0 whose.1 whose.2 call.now reads reply.now)) }
{
    let (session, client, place) = whose;
    let call = call_value(alloc, call)?;
    let reply = reply_value(alloc, reply)?;
    head_row(alloc, number, "did", session.0)?
        .number(u64::from(client.0))?
        .number(u64::from(place))?
        .with(call)?
        .number(reads)?
        .with(reply)
}

/// The value of a step of a subtree operation.
pub fn work_value(alloc: Global, work: &Work) -> Result<Value, NoMemory>
    ensures { IfOk result (λ value. view value ≡ work_data work.now) }
{
    let row = match work {
        Work::Flag(op, kind, path) => Row::of(alloc, "flag")?
            .number(op.0)?
            .text(kind_word(*kind))?
            .path(path),
        Work::Batch(op) => Row::of(alloc, "batch")?.number(op.0),
        Work::Reclaim(op) => Row::of(alloc, "reclaim")?.number(op.0),
    }?;
    Ok(row.value())
}

/// The value of what a session met.
pub fn cause_value(alloc: Global, cause: &Cause) -> Result<Value, NoMemory>
    ensures { IfOk result (λ value. view value ≡ cause_data cause.now) }
{
    let row = match cause {
        Cause::Locked(key, mode, holder) => Row::of(alloc, "locked")?
            .with(key_value(alloc, key)?)?
            .text(mode_letter(*mode))?
            .number(holder.0),
        Cause::Flagged(op) => Row::of(alloc, "flagged")?.number(op.0),
        Cause::Changed(from) => Row::of(alloc, "changed")?.number(*from),
        Cause::Lost(op) => Row::of(alloc, "lost")?.number(op.0),
    }?;
    Ok(row.value())
}

fn paths_value(alloc: Global, paths: &[Path]) -> Result<Value, NoMemory>
    ensures { IfOk result (λ value. view value ≡ row (map path_data paths.now)) }
{
    let mut row = Row::new(alloc);
    for path in paths {
        row = row.path(path)?;
    }
    Ok(row.value())
}

fn kind_word(kind: OpKind) -> &'static str
    ensures { string result.now ≡ kind_data kind }
{
    match kind {
        OpKind::Delete => "delete",
        OpKind::Rename => "rename",
        OpKind::Quota => "quota",
    }
}

fn ended_word(ended: Ended) -> &'static str
    ensures { string result.now ≡ ended_data ended }
{
    match ended {
        Ended::Stopped => "stopped",
        Ended::Evicted => "evicted",
    }
}
