//! What a namespace holds.

ghost use Rattle.std.specs.Prelude.{◌≡◌, IfOk};
ghost use Rattle.serde_json.specs.View.{view};
ghost use Rattle.report_text.specs.Entries.{entry_data, place_data, writer_data};

use hops_base::{ClientNo, NoMemory, Path};
use name_space::Entry;
use script_text::{Fields, Row};
use serde_json::Value;
use std::alloc::Global;

/// The value of a path and its entry.
pub fn place_value(alloc: Global, path: &Path, entry: &Entry) -> Result<Value, NoMemory>
    ensures { IfOk result (λ value. view value ≡ place_data (path.now, entry.now)) }
{
    let entry = entry_value(alloc, entry)?;
    let row = Row::of(alloc, "path")?.path(path)?.with(entry)?;
    Ok(row.value())
}

/// The value of an entry.
pub fn entry_value(alloc: Global, entry: &Entry) -> Result<Value, NoMemory>
    ensures { IfOk result (λ value. view value ≡ entry_data entry.now) }
{
    let fields = match entry {
        Entry::Dir {
            mode,
            owner,
            max_names,
            max_bytes,
        } => Fields::new(alloc)
            .text("kind", "dir")?
            .optional("max_bytes", *max_bytes)?
            .optional("max_names", *max_names)?
            .number("mode", u64::from(*mode))?
            .text("owner", owner.text()),
        Entry::File {
            len,
            writer,
            mode,
            owner,
        } => Fields::new(alloc)
            .text("kind", "file")?
            .number("len", *len)?
            .number("mode", u64::from(*mode))?
            .text("owner", owner.text())?
            .with("writer", writer_value(*writer)),
    }?;
    Ok(fields.value())
}

// The value of the number of a writer, which may be absent.
fn writer_value(writer: Option<ClientNo>) -> Value
    ensures { view result ≡ writer_data writer }
{
    match writer {
        None => Value::Null,
        Some(client) => Value::from(client.0),
    }
}
