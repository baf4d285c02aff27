//! The operations whose flags are set.

ghost use Rattle.std.specs.Prelude.{◌≡◌, ◌||◌, ◌++◌, [], map, cond, Some, None, IfOk, OnOk};
ghost use Rattle.std.specs.BTreeMap.{get};
ghost use Rattle.std.specs.BTreeSet as sorted;
ghost use Rattle.std.specs.List.{list_any, filter_map, cons_option};
ghost use Rattle.std.specs.List.Sorted.{IsStrictlySortedBy};
ghost use Rattle.std.specs.Option.{option_or};
ghost use Rattle.hops_base.specs.declared.ids.OpId.{OpId};
ghost use Rattle.hops_base.specs.declared.ids.SessionId.{SessionId};
ghost use Rattle.commit_log.specs.Parts.{is_answer_of, flagged, flags_op};
ghost use Rattle.commit_log.specs.Places.{reclaims_op};
ghost use Rattle.commit_log.specs.Reads.{op_cmp, session_cmp, FlagsExactly};
ghost use Rattle.commit_log.specs.FlagMarks.{IsFlagMarks, op_and_session, runs_on, runs_as};

use crate::note::{Note, Work};
use crate::places::is_past;
use hops_base::{NoMemory, OpId, SessionId};
use std::alloc::Global;
use std::collections::{BTreeMap, BTreeSet};

/// How many notes there are up to what tells which flags are set.
#[derive(Drop)]
pub struct FlagMarks {
    flagged: BTreeMap<OpId, u64>,
    reclaimed: BTreeMap<OpId, u64>,
    answered: BTreeMap<SessionId, u64>,
}

/// The operations whose flags are set at the end of the notes, rising. One walk over the notes gathers
/// every flag and what ends flags; what was gathered is then sifted.
pub fn flagged_ops(alloc: Global, notes: &[Note]) -> Result<Vec<OpId>, NoMemory>
    ensures { IfOk result (λ ops. FlagsExactly notes.now ops.items) }
{
    let (marks, flags) = gather_flags(alloc, notes)?;
    let ops = running_ops(alloc, &marks, &flags)?;
    ops_in_order(alloc, ops)
}

// Gathers what sets and ends flags, and the operation and the session of each flag in their order.
fn gather_flags(
    alloc: Global,
    notes: &[Note],
) -> Result<(FlagMarks, Vec<(OpId, SessionId)>), NoMemory>
    ensures marks { IfOk result (λ gathered. IsFlagMarks notes.now gathered.0) }
    ensures flags { IfOk result (λ gathered. gathered.1.items ≡ map op_and_session (filter_map flagged notes.now)) }
{
    let mut marks = FlagMarks {
        flagged: BTreeMap::new(alloc),
        reclaimed: BTreeMap::new(alloc),
        answered: BTreeMap::new(alloc),
    };
    let mut flags = Vec::new(alloc);
    for (i, note) in notes.iter().enumerate() {
        let count = i as u64 + 1;
        mark_flag(&mut marks.flagged, count, note)?;
        mark_reclaim(&mut marks.reclaimed, count, note)?;
        mark_answer(&mut marks.answered, count, note)?;
        add_flag(&mut flags, note)?;
    }
    Ok((marks, flags))
}

// Keeps how many notes there are up to the first flag of each operation.
fn mark_flag(first: &mut BTreeMap<OpId, u64>, count: u64, note: &Note) -> Result<(), NoMemory>
    ensures ok { OnOk result ((op : OpId) → get op_cmp first.new op ≡ option_or (get op_cmp first.old op) (cond (flags_op op note.now) (Some count) None)) }
{
    if let Note::Wrote(_, Work::Flag(op, _, _)) = note {
        if !first.contains_key(op) {
            first.insert(*op, count)?;
        }
    }
    Ok(())
}

// Keeps how many notes there are up to the last reclaim of each operation.
fn mark_reclaim(last: &mut BTreeMap<OpId, u64>, count: u64, note: &Note) -> Result<(), NoMemory>
    ensures ok { OnOk result ((op : OpId) → get op_cmp last.new op ≡ cond (reclaims_op op note.now) (Some count) (get op_cmp last.old op)) }
{
    if let Note::Wrote(_, Work::Reclaim(op)) = note {
        last.insert(*op, count)?;
    }
    Ok(())
}

// Keeps how many notes there are up to the last answer of each session.
fn mark_answer(last: &mut BTreeMap<SessionId, u64>, count: u64, note: &Note) -> Result<(), NoMemory>
    ensures ok { OnOk result ((s : SessionId) → get session_cmp last.new s ≡ cond (is_answer_of s note.now) (Some count) (get session_cmp last.old s)) }
{
    if let Note::Did(s, _, _, _, _, _) = note {
        last.insert(*s, count)?;
    }
    Ok(())
}

// Adds the operation whose flag the note sets, and its session.
fn add_flag(flags: &mut Vec<(OpId, SessionId)>, note: &Note) -> Result<(), NoMemory>
    ensures ok { OnOk result (flags.new.items ≡ flags.old.items ++ map op_and_session (cons_option (flagged note.now) [])) }
{
    if let Note::Wrote(s, Work::Flag(op, _, _)) = note {
        flags.push((*op, *s))?;
    }
    Ok(())
}

// The operations of the flags that nothing has ended.
fn running_ops(
    alloc: Global,
    marks: &FlagMarks,
    flags: &[(OpId, SessionId)],
) -> Result<BTreeSet<OpId>, NoMemory>
    ensures { IfOk result (λ ops. (op : OpId) → sorted.contains op_cmp ops op ≡ list_any (runs_as marks.now op) flags.now) }
{
    let mut ops = BTreeSet::new(alloc);
    for flag in flags {
        add_running(&mut ops, marks, *flag)?;
    }
    Ok(ops)
}

// Adds the operation of the flag, where nothing has ended it.
fn add_running(
    ops: &mut BTreeSet<OpId>,
    marks: &FlagMarks,
    flag: (OpId, SessionId),
) -> Result<(), NoMemory>
    ensures ok { OnOk result ((op : OpId) → sorted.contains op_cmp ops.new op ≡ (sorted.contains op_cmp ops.old op || runs_as marks.now op flag)) }
{
    let (op, s) = flag;
    if is_running(marks, op, s) {
        ops.insert(op)?;
    }
    Ok(())
}

// Whether nothing has ended the operation of the session since its flag.
fn is_running(marks: &FlagMarks, op: OpId, s: SessionId) -> bool
    ensures { result ≡ runs_on marks.now op s }
{
    let since = marks.flagged.get(&op).copied();
    let reclaimed = marks.reclaimed.get(&op).copied();
    let answered = marks.answered.get(&s).copied();
    !is_past(since, reclaimed) && !is_past(since, answered)
}

// The operations of the set, rising.
fn ops_in_order(alloc: Global, ops: BTreeSet<OpId>) -> Result<Vec<OpId>, NoMemory>
    ensures items { IfOk result (λ v. v.items ≡ ops.keys) }
    ensures ordered { OnOk result (IsStrictlySortedBy op_cmp ops.keys) }
{
    // `len` tells the proof that the operations rise.
    let _count = ops.len();
    match ops.into_iter().collect(alloc) {
        Ok(ops) => Ok(ops),
        Err(_) => Err(NoMemory),
    }
}
