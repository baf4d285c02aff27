//! Keys and how they are locked.

ghost use Rattle.std.specs.Prelude.{◌≡◌, IfOk};
ghost use Rattle.serde_json.specs.Data.{string};
ghost use Rattle.serde_json.specs.View.{view};
ghost use Rattle.report_text.specs.Keys.{key_data, mode_data};

use hops_base::{Key, Mode, NoMemory};
use script_text::Row;
use serde_json::Value;
use std::alloc::Global;

/// The value of a key: the word of its table and its fields.
pub fn key_value(alloc: Global, key: &Key) -> Result<Value, NoMemory>
    ensures { IfOk result (λ value. view value ≡ key_data key.now) }
{
    let row = match key {
        Key::Inode(parent, name) => Row::of(alloc, "inode")?.number(parent.0)?.text(name.text()),
        Key::Quota(id) => Row::of(alloc, "quota")?.number(id.0),
        Key::Lease(client, id) => Row::of(alloc, "lease")?
            .number(u64::from(client.0))?
            .number(id.0),
        Key::Reply(client) => Row::of(alloc, "reply")?.number(u64::from(client.0)),
        Key::Ongoing(op) => Row::of(alloc, "ongoing")?.number(op.0),
        Key::Gate => Row::of(alloc, "gate"),
    }?;
    Ok(row.value())
}

/// The letter of a mode.
pub fn mode_letter(mode: Mode) -> &'static str
    ensures { string result.now ≡ mode_data mode }
{
    match mode {
        Mode::Shared => "S",
        Mode::Exclusive => "X",
    }
}
