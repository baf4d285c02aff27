//! The locks that are held.

ghost use Rattle.std.specs.Prelude.{◌≡◌, [], ◌∷◌, ◌++◌, map, cond, Some, None, option_map, IfOk, OnOk};
ghost use Rattle.std.specs.BTreeMap.{get};
ghost use Rattle.std.specs.List.{filter};
ghost use Rattle.std.specs.List.Sorted.{IsPermutation, IsSorted, IsStable};
ghost use Rattle.std.specs.Option.{option_or};
ghost use Rattle.hops_base.specs.declared.ids.NodeNo.{NodeNo};
ghost use Rattle.hops_base.specs.declared.ids.SessionId.{SessionId};
ghost use Rattle.commit_log.specs.Parts.{is_loss_of};
ghost use Rattle.commit_log.specs.Places.{gives_all, opening_node};
ghost use Rattle.commit_log.specs.Reads.{lock_cmp, node_cmp, session_cmp, HoldsExactly};
ghost use Rattle.commit_log.specs.LockMarks.{IsLockMarks, counted_at, stays_on, taken_at, taken_from, is_lasting, lock_in};

use crate::note::Note;
use crate::places::is_past;
use hops_base::{Key, Mode, NoMemory, NodeNo, SessionId};
use std::alloc::Global;
use std::collections::BTreeMap;

/// How many notes there are up to what tells which locks were given back.
#[derive(Drop)]
pub struct LockMarks {
    opened: BTreeMap<SessionId, (u64, NodeNo)>,
    gave: BTreeMap<SessionId, u64>,
    gone: BTreeMap<NodeNo, u64>,
}

/// A lock that was taken, and how many notes there are up to the one that tells so.
#[derive(Drop)]
pub struct Taken {
    count: u64,
    lock: (SessionId, Key, Mode),
}

/// The locks that are held at the end of the notes, by key and then by session. One walk over the notes
/// gathers every lock that was taken and what gives locks back; what was gathered is then sifted.
pub fn held_locks(alloc: Global, notes: &[Note]) -> Result<Vec<(SessionId, Key, Mode)>, NoMemory>
    ensures { IfOk result (λ locks. HoldsExactly notes.now locks.items) }
{
    let (marks, takings) = gather_locks(alloc, notes)?;
    let locks = lasting_locks(alloc, &marks, takings)?;
    locks_in_order(locks)
}

// Gathers what opens sessions and gives locks back, and the locks that were taken in their order.
fn gather_locks(alloc: Global, notes: &[Note]) -> Result<(LockMarks, Vec<Taken>), NoMemory>
    ensures marks { IfOk result (λ gathered. IsLockMarks notes.now gathered.0) }
    ensures takings { IfOk result (λ gathered. gathered.1.items ≡ taken_from 0 notes.now) }
{
    let mut marks = LockMarks {
        opened: BTreeMap::new(alloc),
        gave: BTreeMap::new(alloc),
        gone: BTreeMap::new(alloc),
    };
    let mut takings = Vec::new(alloc);
    for (i, note) in notes.iter().enumerate() {
        let count = i as u64 + 1;
        mark_opening(&mut marks.opened, count, note)?;
        mark_giving(&mut marks.gave, count, note)?;
        mark_loss(&mut marks.gone, count, note)?;
        add_taken(&mut takings, count, note)?;
    }
    Ok((marks, takings))
}

// Keeps how many notes there are up to the opening of each session, and its namenode.
fn mark_opening(
    opened: &mut BTreeMap<SessionId, (u64, NodeNo)>,
    count: u64,
    note: &Note,
) -> Result<(), NoMemory>
    ensures ok { OnOk result ((s : SessionId) → get session_cmp opened.new s ≡ option_or (get session_cmp opened.old s) (option_map (counted_at count) (opening_node s note.now))) }
{
    if let Note::Open(s, _, _, node) = note {
        if !opened.contains_key(s) {
            opened.insert(*s, (count, *node))?;
        }
    }
    Ok(())
}

// Keeps how many notes there are up to the last by which each session gave all its locks back.
fn mark_giving(last: &mut BTreeMap<SessionId, u64>, count: u64, note: &Note) -> Result<(), NoMemory>
    ensures ok { OnOk result ((s : SessionId) → get session_cmp last.new s ≡ cond (gives_all s note.now) (Some count) (get session_cmp last.old s)) }
{
    if let Note::Gave(s) | Note::Did(s, _, _, _, _, _) = note {
        last.insert(*s, count)?;
    }
    Ok(())
}

// Keeps how many notes there are up to the last by which each namenode was gone.
fn mark_loss(last: &mut BTreeMap<NodeNo, u64>, count: u64, note: &Note) -> Result<(), NoMemory>
    ensures ok { OnOk result ((node : NodeNo) → get node_cmp last.new node ≡ cond (is_loss_of node note.now) (Some count) (get node_cmp last.old node)) }
{
    if let Note::Gone(node, _) = note {
        last.insert(*node, count)?;
    }
    Ok(())
}

// Adds the lock that the note takes, and how many notes there are up to it.
fn add_taken(takings: &mut Vec<Taken>, count: u64, note: &Note) -> Result<(), NoMemory>
    ensures ok { OnOk result (takings.new.items ≡ takings.old.items ++ taken_at count note.now) }
{
    if let Note::Took(s, key, mode) = note {
        let lock = (*s, key.copy()?, *mode);
        takings.push(Taken { count, lock })?;
    }
    Ok(())
}

// The locks that nothing has given back, in the order in which they were taken.
fn lasting_locks(
    alloc: Global,
    marks: &LockMarks,
    takings: Vec<Taken>,
) -> Result<Vec<(SessionId, Key, Mode)>, NoMemory>
    ensures { IfOk result (λ locks. locks.items ≡ map lock_in (filter (is_lasting marks.now) takings.items)) }
{
    let mut locks = Vec::new(alloc);
    for taken in takings {
        add_lasting(&mut locks, marks, taken)?;
    }
    Ok(locks)
}

// Adds the lock that was taken, where nothing has given it back.
fn add_lasting(
    locks: &mut Vec<(SessionId, Key, Mode)>,
    marks: &LockMarks,
    taken: Taken,
) -> Result<(), NoMemory>
    ensures ok { OnOk result (locks.new.items ≡ locks.old.items ++ map lock_in (filter (is_lasting marks.now) (taken ∷ []))) }
{
    let Taken { count, lock } = taken;
    if stays_on(marks, count, lock.0) {
        locks.push(lock)?;
    }
    Ok(())
}

// Whether a lock that the session took by the last of so many notes is still held.
fn stays_on(marks: &LockMarks, count: u64, s: SessionId) -> bool
    ensures { result ≡ stays_on marks.now count s }
{
    let gave = marks.gave.get(&s).copied();
    let lost = match marks.opened.get(&s).copied() {
        Some((opened, node)) => {
            let gone = marks.gone.get(&node).copied();
            is_past(Some(count.max(opened)), gone)
        }
        None => false,
    };
    !is_past(Some(count), gave) && !lost
}

// The locks by key and then by session.
fn locks_in_order(
    mut locks: Vec<(SessionId, Key, Mode)>,
) -> Result<Vec<(SessionId, Key, Mode)>, NoMemory>
    ensures all { IfOk result (λ v. IsPermutation locks.items v.items) }
    ensures rise { IfOk result (λ v. IsSorted lock_cmp v.items) }
    ensures stable { IfOk result (λ v. IsStable lock_cmp locks.items v.items) }
{
    locks.sort_by(|a, b| a.1.cmp(&b.1).then(a.0.cmp(&b.0)))?;
    Ok(locks)
}
