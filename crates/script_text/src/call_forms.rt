//! The forms of calls: what stands behind the name of each.

ghost use Rattle.std.specs.Prelude.{◌≡◌, ◌∷◌, [], map, filter_map, None, IfOk, option_map, false};
ghost use Rattle.std.specs.Option.{option_map_or};
ghost use Rattle.std.specs.Cmp.Lexicographic.{pointwise};
ghost use Rattle.hops_base.specs.First.{first_some};
ghost use Rattle.hops_base.specs.Path.{path_fault};
ghost use Rattle.name_space.specs.Call.{a_path, a_truth, a_number, a_quota, most_grown, most_mode};
ghost use Rattle.serde_json.specs.Find.{as_str};
ghost use Rattle.serde_json.specs.View.{view};
ghost use Rattle.script_text.specs.Json.{values_in};
ghost use Rattle.script_text.specs.CallForms.{has_kind, behind_name, kinds_named, named_by};

use crate::members::array_of;
use hops_base::{NoMemory, Path, PathFault};
use serde_json::Value;
use std::alloc::Global;

/// The values in an array; another value has none.
pub fn values_in(value: &Value) -> &[Value]
    ensures { map view result.now ≡ values_in (view value.now) }
{
    match array_of(value) {
        Some(values) => values,
        None => &[],
    }
}

/// The name of a value that is an array with a text in front: that text. None exactly where there is no such text.
pub fn name_of(value: &Value) -> Option<&str>
    ensures { option_map (λ name. name.now) result ≡ named_by (view value.now) }
{
    match values_in(value) {
        [name, ..] => name.as_str(),
        [] => None,
    }
}

/// What stands behind the name of such a value: all but the first value in an array.
pub fn behind_name(value: &Value) -> &[Value]
    ensures { map view result.now ≡ behind_name (view value.now) }
{
    match values_in(value) {
        [_, rest @ ..] => rest,
        [] => &[],
    }
}

// Whether these values may stand behind this name, in count and in kind.
pub fn has_form(name: &str, rest: &[Value]) -> bool
    ensures { result ≡ option_map_or (λ kinds. pointwise has_kind kinds (map view rest.now)) (kinds_named name.now) false }
{
    match name {
        "mkdirs" | "append" | "close" | "stat" | "list" | "usage" => is_path(rest),
        "create" | "delete" => is_path_and_truth(rest),
        "grow" | "chmod" => is_path_and_number(rest),
        "rename" => is_two_paths(rest),
        "set_quota" => is_path_and_quotas(rest),
        _ => false,
    }
}

fn is_path(rest: &[Value]) -> bool
    ensures { result ≡ pointwise has_kind (a_path [] ∷ []) (map view rest.now) }
{
    match rest {
        [path] => path.is_string(),
        _ => false,
    }
}

fn is_path_and_truth(rest: &[Value]) -> bool
    ensures { result ≡ pointwise has_kind (a_path [] ∷ a_truth false ∷ []) (map view rest.now) }
{
    match rest {
        [path, truth] => path.is_string() && truth.is_boolean(),
        _ => false,
    }
}

fn is_path_and_number(rest: &[Value]) -> bool
    ensures grow { result ≡ pointwise has_kind (a_path [] ∷ a_number 1 most_grown 1 ∷ []) (map view rest.now) }
    ensures chmod { result ≡ pointwise has_kind (a_path [] ∷ a_number 0 most_mode 0 ∷ []) (map view rest.now) }
{
    match rest {
        [path, number] => path.is_string() && number.is_u64(),
        _ => false,
    }
}

fn is_two_paths(rest: &[Value]) -> bool
    ensures { result ≡ pointwise has_kind (a_path [] ∷ a_path [] ∷ []) (map view rest.now) }
{
    match rest {
        [source, target] => source.is_string() && target.is_string(),
        _ => false,
    }
}

fn is_path_and_quotas(rest: &[Value]) -> bool
    ensures { result ≡ pointwise has_kind (a_path [] ∷ a_quota None ∷ a_quota None ∷ []) (map view rest.now) }
{
    match rest {
        [path, names, bytes] => path.is_string() && is_quota(names) && is_quota(bytes),
        _ => false,
    }
}

// Whether the value is a whole number or null.
fn is_quota(value: &Value) -> bool
    ensures { result ≡ has_kind (a_quota None) (view value.now) }
{
    value.is_null() || value.is_u64()
}

// Why the first path is refused that is; None where none is.
pub fn refused_path(alloc: Global, rest: &[Value]) -> Result<Option<PathFault>, NoMemory>
    ensures { IfOk result (λ why. why ≡ first_some (map path_fault (filter_map as_str (map view rest.now)))) }
{
    for value in rest {
        if let Some(text) = value.as_str() {
            match Path::read(alloc, text) {
                Ok(_) => {}
                Err(PathFault::NoMemory) => return Err(NoMemory),
                Err(why) => return Ok(Some(why)),
            }
        }
    }
    Ok(None)
}
