//! Whole runs that hold together, and that kept what a run keeps.

ghost use Rattle.commit_log.specs.WorkedRuns.{made_without_locks, made_and_seen, deleted_beside, cut_off, RunIsTold, RunIsKept, RunIsKeptWithoutLocks};

/// A directory is made and then looked at, without locks and with them.
pub fn a_directory_is_made()
    ensures told_without_locks { RunIsTold made_without_locks }
    ensures kept_without_locks { RunIsKeptWithoutLocks made_without_locks }
    ensures told { RunIsTold made_and_seen }
    ensures kept { RunIsKept made_and_seen }
{}

/// One client makes a file where another deletes the directory above it.
pub fn a_delete_goes_beside_a_create()
    ensures told { RunIsTold deleted_beside }
    ensures kept { RunIsKept deleted_beside }
{}

/// A namenode stops amid a delete.
pub fn a_delete_is_cut_off()
    ensures told { RunIsTold cut_off }
    ensures kept { RunIsKept cut_off }
{}
