//! What stands at the keys of an object of JSON.

ghost use Rattle.std.specs.Prelude.{◌≡◌, ◌==◌, map, length, option_map, option_and_then, bytes_eq};
ghost use Rattle.std.specs.List.{list_all, list_any};
ghost use Rattle.serde_json.specs.Find.{get_member, as_array, as_str};
ghost use Rattle.serde_json.specs.View.{view, members_view};
ghost use Rattle.script_text.specs.Json.{values_of, keys_of, as_whole};

use serde_json::{Map, Value};

/// The members of an object. Of a key that stands twice in its text it has the last value.
pub type Members = Map<String, Value>;

/// The value at a key. None exactly where there is none.
pub fn value_at<'a>(members: &'a Members, key: &str) -> Option<&'a Value>
    ensures { option_map (λ value. view value.now) result ≡ get_member key.now (members_view members.now.entries) }
{
    members.get(key)
}

/// The values of the array at a key. None exactly where there is no array.
pub fn array_at<'a>(members: &'a Members, key: &str) -> Option<&'a [Value]>
    ensures { option_map (λ values. map view values.now) result
        ≡ option_map values_of (option_and_then as_array (get_member key.now (members_view members.now.entries))) }
{
    match value_at(members, key) {
        Some(value) => array_of(value),
        None => None,
    }
}

/// The values of an array. None exactly where the value is no array.
pub fn array_of(value: &Value) -> Option<&[Value]>
    ensures { option_map (λ values. map view values.now) result ≡ option_map values_of (as_array (view value.now)) }
{
    match value.as_array() {
        Some(values) => Some(values.as_slice()),
        None => None,
    }
}

// The text at a key. None exactly where there is no text.
pub fn text_at<'a>(members: &'a Members, key: &str) -> Option<&'a str>
    ensures { option_map (λ text. text.now) result
        ≡ option_and_then as_str (get_member key.now (members_view members.now.entries)) }
{
    match value_at(members, key) {
        Some(value) => value.as_str(),
        None => None,
    }
}

// The whole number at a key. None exactly where there is none.
pub fn whole_at(members: &Members, key: &str) -> Option<u64>
    ensures { result ≡ option_and_then as_whole (get_member key.now (members_view members.now.entries)) }
{
    match value_at(members, key) {
        Some(value) => value.as_u64(),
        None => None,
    }
}

/// How many keys there are, each counted once.
pub fn key_count(members: &Members) -> usize
    ensures { result ≡ length (keys_of (members_view members.now.entries)) }
{
    members.len()
}

// Whether each key is one of these.
pub fn has_only(members: &Members, known: &[&str]) -> bool
    ensures { result
        ≡ list_all (λ key. list_any (bytes_eq key) (map (λ k. k.now) known.now)) (keys_of (members_view members.now.entries)) }
{
    for key in members.keys() {
        if !is_among(key.as_str(), known) {
            return false;
        }
    }
    true
}

// Whether the key is one of these.
fn is_among(key: &str, known: &[&str]) -> bool
    ensures { result ≡ list_any (bytes_eq key.now) (map (λ k. k.now) known.now) }
{
    for one in known {
        if key == *one {
            return true;
        }
    }
    false
}
