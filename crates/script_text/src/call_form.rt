//! Calls, as scripts and reports have them.

ghost use Rattle.std.specs.Prelude.{◌≡◌, ◌∷◌, [], ◌++◌, map, IfOk};
ghost use Rattle.name_space.specs.Call.{form_of};
ghost use Rattle.serde_json.specs.View.{view};
ghost use Rattle.script_text.specs.Form.{argument_data, call_data};
ghost use Rattle.script_text.specs.Built.{data_in};

use crate::build::Row;
use hops_base::NoMemory;
use name_space::Call;
use serde_json::Value;
use std::alloc::Global;

/// The value of a call: its word and what it is made with.
pub fn call_value(alloc: Global, call: &Call) -> Result<Value, NoMemory>
    ensures { IfOk result (λ value. view value ≡ call_data call.now) }
{
    let row = Row::of(alloc, call.word())?;
    Ok(with_arguments(row, call)?.value())
}

// The row with the arguments of a call behind what it has.
fn with_arguments(row: Row, call: &Call) -> Result<Row, NoMemory>
    ensures { IfOk result (λ all. data_in all ≡ data_in row ++ map argument_data (form_of call.now).arguments) }
{
    match call {
        Call::Mkdirs(path)
        | Call::Append(path)
        | Call::Close(path)
        | Call::Stat(path)
        | Call::List(path)
        | Call::Usage(path) => row.path(path),
        Call::Create(path, truth) | Call::Delete(path, truth) => row.path(path)?.truth(*truth),
        Call::Grow(path, bytes) => row.path(path)?.number(*bytes),
        Call::Rename(source, target) => row.path(source)?.path(target),
        Call::Chmod(path, mode) => row.path(path)?.number(u64::from(*mode)),
        Call::SetQuota(path, names, bytes) => row.path(path)?.optional(*names)?.optional(*bytes),
    }
}
