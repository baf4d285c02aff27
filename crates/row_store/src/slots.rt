//! A list of slots: keys, each with its row or ready for one. No key has two.

ghost use Rattle.std.specs.Prelude.{◌≡◌, ◌++◌, ◌∷◌, [], None, Some, true, is_some, MatchOption, OnOk, OnErr, option_copied};
ghost use Rattle.std.specs.List.{position_from};
ghost use Rattle.std.specs.Map.{lookup, set_value, remove_entry};
ghost use Rattle.std.specs.Option.{option_flatten};
ghost use Rattle.hops_base.specs.Key.{same_key};
ghost use Rattle.row_store.specs.Slots.{is_slot_of, IsSlotAt};

use hops_base::{Key, NoMemory};
use std::mem;

/// A key, and its row; none where the key is only ready for one.
pub type Slot<R> = (Key, Option<R>);

/// The row of a key.
pub fn row_of<'a, R>(slots: &'a [Slot<R>], key: &Key) -> Option<&'a R>
    ensures { option_copied result ≡ option_flatten (lookup (same_key key.now) slots.now) }
{
    match index_of(slots, key) {
        Some(at) => slots[at].1.as_ref(),
        None => None,
    }
}

/// Whether the key has a slot.
pub fn has_slot<R>(slots: &[Slot<R>], key: &Key) -> bool
    ensures { result ≡ is_some (lookup (same_key key.now) slots.now) }
{
    index_of(slots, key).is_some()
}

/// Puts a row into the slot of a key, and gives back the row that was there.
pub fn fill<R>(slots: &mut Vec<Slot<R>>, key: &Key, row: R) -> Option<R>
    requires { is_some (lookup (same_key key.now) slots.old.items) ≡ true }
    ensures row { Some result ≡ lookup (same_key key.now) slots.old.items }
    ensures slots { slots.new.items ≡ set_value (same_key key.now) slots.old.items (Some row) }
{
    match index_of(slots, key) {
        Some(at) => mem::replace(&mut slots[at].1, Some(row)),
        None => unreachable!(),
    }
}

/// Removes the slot of a key, and gives back its row. None where there was no row.
pub fn clear<R>(slots: &mut Vec<Slot<R>>, key: &Key) -> Option<R>
    ensures row { result ≡ option_flatten (lookup (same_key key.now) slots.old.items) }
    ensures slots { slots.new.items ≡ remove_entry (same_key key.now) slots.old.items }
{
    match index_of(slots, key) {
        Some(at) => {
            let (_, row) = slots.remove(at);
            row
        }
        None => None,
    }
}

/// Adds a slot for this key, with no row.
pub fn add<R: Drop>(slots: &mut Vec<Slot<R>>, key: &Key) -> Result<(), NoMemory>
    ensures ok { OnOk result (slots.new.items ≡ slots.old.items ++ (key.now, None) ∷ []) }
    ensures err { OnErr result (slots.new.items ≡ slots.old.items) }
{
    slots.push((key.copy()?, None))?;
    Ok(())
}

// The index of the slot of a key.
fn index_of<R>(slots: &[Slot<R>], key: &Key) -> Option<usize>
    ensures { MatchOption result (lookup (same_key key.now) slots.now ≡ None) (IsSlotAt key.now slots.now) }
{
    position_of(slots, key)
}

// That index, by the one search through the slots.
fn position_of<R>(slots: &[Slot<R>], key: &Key) -> Option<usize>
    ensures { result ≡ position_from (is_slot_of key.now) 0 slots.now }
{
    slots.iter().position(|slot| *key == slot.0)
}
