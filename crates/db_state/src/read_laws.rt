//! Laws of what sessions have read, of how they come by it, and of the keys that they hold.

ghost use Rattle.db_state.specs.ReadingLaws.{FoundRowsLeadFurther, FoundRowsLeadToTheEnd, FoundRowsLeadToAGap, PathEndsLocked, RenameEndsLocked};
ghost use Rattle.db_state.specs.ReadingLaws.{ReadsStandOnceRead, PlanStaysOnceRead, ReadsStandOneRowFurther, ReadsThatStandAreCurrent, PlanStaysInTheView};
ghost use Rattle.db_state.specs.ReadingLaws.{ReadsStandBesideACommit, SessionStandsBesideAnAnswer, SessionStandsBesideANote};
ghost use Rattle.db_state.specs.ReadingLaws.{NoteLeavesLocks, NoteOfAnotherLeavesLocks, TookLeavesLocks, KeysAreHeldOn, NoKeyIsHeld, NextKeyIsHeld, PlanIsHeld};

/// Rows that lead along a path lead on by the row of the next name; and with no name left they lead to the end of the
/// path, with no row for the next name to the name that is missing, or to the file that stands in its way.
pub fn rows_are_found_one_by_one()
    ensures further { FoundRowsLeadFurther }
    ensures whole { FoundRowsLeadToTheEnd }
    ensures stop { FoundRowsLeadToAGap }
{}

/// The plan of a call locks the last row that was found for each of its paths.
pub fn the_last_row_found_is_locked()
    ensures path { PathEndsLocked }
    ensures rename { RenameEndsLocked }
{}

/// Where a session reads all its locked rows again as it had found them, and finds nothing at the first missing keys, its
/// reads stand from the last row of each place on.
pub fn reads_stand_once_read()
    ensures { ReadsStandOnceRead }
{}

/// Reads that stand do so from one row further up, where that is locked or is found again.
pub fn reads_stand_one_row_further()
    ensures { ReadsStandOneRowFurther }
{}

/// Once every row but the root's is locked or was read again, the view that a commit makes of the reads is current.
pub fn reads_that_stand_are_current()
    ensures { ReadsThatStandAreCurrent }
{}

/// The plan of a call stays the same as its rows are read again, and in the view that a commit makes.
pub fn plans_stay()
    ensures read { PlanStaysOnceRead }
    ensures view { PlanStaysInTheView }
{}

/// What a session has read stands on beside a commit of another that holds the keys it writes, keeps rows, and moves none
/// of the rows that stand above the last of their place.
pub fn reads_stand_beside_a_commit()
    ensures { ReadsStandBesideACommit }
{}

/// What a session has read stands on beside a note that leaves it its locks, and beside the answer of another whose own
/// reads stand, where that writes its own keys alone and keeps rows.
pub fn sessions_stand_on()
    ensures note { SessionStandsBesideANote }
    ensures commit { SessionStandsBesideAnAnswer }
{}

/// A note of another session leaves a session its locks, and so does each of its own but a Gave and a Did; a Gone does so
/// where the session was opened at another namenode.
pub fn notes_leave_locks()
    ensures all { NoteLeavesLocks }
    ensures others { NoteOfAnotherLeavesLocks }
    ensures took { TookLeavesLocks }
{}

/// A session holds on what a note leaves it. Of its keys it holds none at first, and one more with each that it takes; and
/// with all keys of a plan it holds what the plan locks.
pub fn keys_are_held_one_by_one()
    ensures held { KeysAreHeldOn }
    ensures none { NoKeyIsHeld }
    ensures took { NextKeyIsHeld }
    ensures plan { PlanIsHeld }
{}
