//! The rows below a parent, among slots.

ghost use Rattle.std.specs.Prelude.{◌≡◌, ◌||◌, ℕ, List, is_some, count_by, option_copied, IfOk, OnOk};
ghost use Rattle.std.specs.BTreeSet as sorted;
ghost use Rattle.std.specs.List.{list_any};
ghost use Rattle.std.specs.List.Sorted.{IsStrictlySortedBy};
ghost use Rattle.std.specs.Ordering.{nat_cmp};
ghost use Rattle.std.specs.Cmp.Lexicographic.{slice_cmp};
ghost use Rattle.std.specs.Prelude.{bytes_eq};
ghost use Rattle.row_store.specs.Slots.{name_in, is_child};

use crate::slots::Slot;
use hops_base::{InodeId, Key, Name, NoMemory};
use std::alloc::Global;
use std::collections::BTreeSet;

/// How many rows stand below the parent.
pub fn count_below<R>(slots: &[Slot<R>], parent: InodeId) -> usize
    ensures { result ≡ count_by (λ slot. is_some (name_in parent slot)) slots.now }
{
    slots
        .iter()
        .filter(|slot| name_in(slot, parent).is_some())
        .count()
}

/// Their names, rising.
pub fn names_below<R>(
    alloc: Global,
    slots: &[Slot<R>],
    parent: InodeId,
) -> Result<Vec<Name>, NoMemory>
    ensures rising { IfOk result (λ names. IsStrictlySortedBy (slice_cmp nat_cmp) names.items) }
    ensures members { IfOk result (λ names. (q : List ℕ) → list_any (bytes_eq q) names.items ≡ list_any (is_child parent q) slots.now) }
{
    let mut names: BTreeSet<Name> = BTreeSet::new(alloc);
    for slot in slots {
        if let Some(name) = name_in(slot, parent) {
            add_name(&mut names, name)?;
        }
    }
    in_order(alloc, names)
}

// The name of the slot's row, if it stands below the parent.
fn name_in<R>(slot: &Slot<R>, parent: InodeId) -> Option<&Name>
    ensures { option_copied result ≡ name_in parent slot.now }
{
    match slot {
        (Key::Inode(id, name), Some(_)) if id.0 == parent.0 => Some(name),
        _ => None,
    }
}

// Adds a copy of the name to the set.
fn add_name(names: &mut BTreeSet<Name>, name: &Name) -> Result<(), NoMemory>
    ensures ok { OnOk result ((q : List ℕ) → sorted.contains (slice_cmp nat_cmp) names.new q ≡ (bytes_eq q name.now || sorted.contains (slice_cmp nat_cmp) names.old q)) }
{
    let name = name.copy()?;
    match names.insert(name) {
        Ok(_) => Ok(()),
        Err(_) => Err(NoMemory),
    }
}

// The names of the set, rising.
fn in_order(alloc: Global, names: BTreeSet<Name>) -> Result<Vec<Name>, NoMemory>
    ensures items { IfOk result (λ v. v.items ≡ names.keys) }
    ensures ordered { OnOk result (IsStrictlySortedBy (slice_cmp nat_cmp) names.keys) }
{
    // `len` tells the proof that the names rise.
    let _count = names.len();
    match names.into_iter().collect(alloc) {
        Ok(names) => Ok(names),
        Err(_) => Err(NoMemory),
    }
}
