//! How a session passes a row that it has found again.

ghost use Rattle.std.specs.Prelude.{◌≡◌, ◌<◌, List, length, slice_set};
ghost use Rattle.hops_base.specs.declared.ids.Mode.{Mode};
ghost use Rattle.hops_base.specs.declared.key.Key.{Key};
ghost use Rattle.db_state.specs.Reads as seen;
ghost use Rattle.chain_check.specs.Passing.{lowest, stage_past, HasReads, Passes};

use crate::reread::Reread;
use crate::search::Spot;
use db_state::{Position, Reads, Stage};

/// A row that was found again, and whether more are left after it.
#[derive(Clone, Copy, Debug)]
pub(crate) struct Passed {
    pub spot: Spot,
    pub more: bool,
}

/// How far a session is that has passed a row, and what it is told.
pub(crate) fn pass(position: Position, passed: Passed) -> (Position, Reread)
    requires { HasReads position.stage passed.spot.place }
    ensures { Passes position passed result.0 result.1 }
{
    let stage = stage_past(position.stage, passed);
    let told = if passed.more {
        Reread::More
    } else {
        Reread::Current
    };
    (Position { stage, ..position }, told)
}

// The stage past a row: the session reads on, or comes to answer.
fn stage_past(stage: Stage, passed: Passed) -> Stage
    requires { HasReads stage passed.spot.place }
    ensures { (reads : seen.Reads) (keys : List (Key × Mode)) → stage ≡ Stage.Reread reads keys → result ≡ stage_past reads keys passed.spot passed.more }
{
    let Stage::Reread(mut reads, plan) = stage else {
        unreachable!()
    };
    lower(&mut reads, passed.spot);
    if passed.more {
        return Stage::Reread(reads, plan);
    }
    lower_all(&mut reads);
    Stage::Commit(reads, plan)
}

// Lowers a place's mark to one of its rows.
fn lower(reads: &mut Reads, spot: Spot)
    requires { spot.place < length reads.old.marks }
    ensures { reads.new ≡ record reads.old { marks = slice_set reads.old.marks spot.place spot.row } }
{
    reads.marks[spot.place] = spot.row;
}

// Lowers each mark to the first row below the root's.
fn lower_all(reads: &mut Reads)
    ensures { reads.new ≡ record reads.old { marks = lowest reads.old.marks } }
{
    for mark in reads.marks.iter_mut() {
        *mark = (*mark).min(1);
    }
}
