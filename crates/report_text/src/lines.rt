//! The lines of a report, in one buffer.

ghost use Rattle.std.specs.Prelude.{◌≡◌, IfOk, OnOk, ◌+◌, ◌<◌, ◌^◌, ◌++◌, false, length, map, flat_map};
ghost use Rattle.serde_json.specs.View.{view};
ghost use Rattle.serde_json.specs.Written.{has_float};
ghost use Rattle.report_text.specs.Answers.{answer_data};
ghost use Rattle.report_text.specs.Entries.{place_data};
ghost use Rattle.report_text.specs.Notes.{note_data};
ghost use Rattle.report_text.specs.Report.{line_of, head_data, notes_data, counts_data};

use crate::answer_form::answer_value;
use crate::entry_form::place_value;
use crate::note_form::note_value;
use commit_log::{AnswerLine, Note};
use hops_base::{NoMemory, Path};
use name_space::Entry;
use script_text::{Fields, Row, Script, script_value};
use serde_json::Value;
use std::alloc::Global;

/// Adds the first line, which has the script.
pub fn add_head(alloc: Global, text: &mut Vec<u8>, script: &Script) -> Result<(), NoMemory>
    ensures { OnOk result (text.new.items ≡ text.old.items ++ line_of (head_data script.now)) }
{
    let value = head_value(alloc, script)?;
    add_line(alloc, text, &value)
}

fn head_value(alloc: Global, script: &Script) -> Result<Value, NoMemory>
    ensures { IfOk result (λ value. view value ≡ head_data script.now) }
{
    let script = script_value(alloc, script)?;
    let fields = Fields::new(alloc)
        .number("report", 1)?
        .with("script", script)?;
    Ok(fields.value())
}

/// Adds a line for each note, numbered from the first one's number.
pub fn add_notes(
    alloc: Global,
    text: &mut Vec<u8>,
    first: u64,
    notes: &[Note],
) -> Result<(), NoMemory>
    requires { first + length notes.now < 2 ^ 64 }
    ensures { OnOk result (text.new.items ≡ text.old.items ++ flat_map line_of (notes_data first notes.now)) }
{
    for (i, note) in notes.iter().enumerate() {
        add_note(alloc, text, first + i as u64, note)?;
    }
    Ok(())
}

fn add_note(alloc: Global, text: &mut Vec<u8>, number: u64, note: &Note) -> Result<(), NoMemory>
    ensures { OnOk result (text.new.items ≡ text.old.items ++ line_of (note_data number note.now)) }
{
    let value = note_value(alloc, number, note)?;
    add_line(alloc, text, &value)
}

/// Adds a line for each answer.
pub fn add_answers(
    alloc: Global,
    text: &mut Vec<u8>,
    answers: &[AnswerLine],
) -> Result<(), NoMemory>
    ensures { OnOk result (text.new.items ≡ text.old.items ++ flat_map line_of (map answer_data answers.now)) }
{
    for answer in answers {
        add_answer(alloc, text, answer)?;
    }
    Ok(())
}

fn add_answer(alloc: Global, text: &mut Vec<u8>, answer: &AnswerLine) -> Result<(), NoMemory>
    ensures { OnOk result (text.new.items ≡ text.old.items ++ line_of (answer_data answer.now)) }
{
    let value = answer_value(alloc, answer)?;
    add_line(alloc, text, &value)
}

/// Adds a line for each path and its entry.
pub fn add_places(alloc: Global, text: &mut Vec<u8>, tree: &[(Path, Entry)]) -> Result<(), NoMemory>
    ensures { OnOk result (text.new.items ≡ text.old.items ++ flat_map line_of (map place_data tree.now)) }
{
    for (path, entry) in tree {
        add_place(alloc, text, path, entry)?;
    }
    Ok(())
}

fn add_place(alloc: Global, text: &mut Vec<u8>, path: &Path, entry: &Entry) -> Result<(), NoMemory>
    ensures { OnOk result (text.new.items ≡ text.old.items ++ line_of (place_data (path.now, entry.now))) }
{
    let value = place_value(alloc, path, entry)?;
    add_line(alloc, text, &value)
}

/// Adds the last line, which counts the others.
pub fn add_counts(
    alloc: Global,
    text: &mut Vec<u8>,
    notes: u64,
    answers: u64,
    places: u64,
) -> Result<(), NoMemory>
    ensures { OnOk result (text.new.items ≡ text.old.items ++ line_of (counts_data notes answers places)) }
{
    let row = Row::of(alloc, "end")?
        .number(notes)?
        .number(answers)?
        .number(places)?;
    add_line(alloc, text, &row.value())
}

/// Adds the compact text of the value and a newline.
pub fn add_line(alloc: Global, text: &mut Vec<u8>, value: &Value) -> Result<(), NoMemory>
    requires { has_float (view value.now) ≡ false }
    ensures { OnOk result (text.new.items ≡ text.old.items ++ line_of (view value.now)) }
{
    let line = value.to_vec(alloc)?;
    text.extend_from_slice(&line)?;
    text.push(b'\n')?;
    Ok(())
}
