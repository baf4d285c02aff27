//! Laws of the rows as one changes or goes, and of what quota rows count.

ghost use Rattle.db_state.specs.Laws.{ChangedRowHasItsPath, ChangedRowKeepsTheTree, ChangedRowKeepsIds, ChangedRowKeepsFlags, ChangedRowChangesItsEntry, ChangedRowIsCounted};
ghost use Rattle.db_state.specs.Laws.{GoneRowHasNoPath, GoneRowKeepsTheTree, GoneRowKeepsIds, GoneRowKeepsFlags, GoneRowTakesItsEntry, GoneRowIsCounted};
ghost use Rattle.db_state.specs.Laws.{RequotedRowChangesItsEntry, RequotedRowIsCounted, ChildrenAreRowsUnderARow, ChildrenAreListedAsRows};
ghost use Rattle.db_state.specs.Laws.{NoFlagsStayNone, RecountedStandForTheSame, NewDirsAreCounted, WrittenQuotasAreRecounted};

/// Where another row of the same id takes a row's place under its key, its path spells that and every other path what it
/// spelled; where it is of the same kind and not the root's, the rows spell a tree again, with the same ids, and stand for the
/// namespace with the new entry.
pub fn a_row_changes_in_place()
    ensures paths { ChangedRowHasItsPath }
    ensures tree { ChangedRowKeepsTheTree }
    ensures given { ChangedRowKeepsIds }
    ensures stands { ChangedRowChangesItsEntry }
{}

/// Where a row goes that has none under it and isn't the root's, its path spells none and every other path what it
/// spelled; the rows that stay spell a tree, with the ids that are still given; and they stand for a namespace that
/// is as before but for that path, with the quota rows but for its own.
pub fn a_row_goes()
    ensures paths { GoneRowHasNoPath }
    ensures tree { GoneRowKeepsTheTree }
    ensures given { GoneRowKeepsIds }
    ensures stands { GoneRowTakesItsEntry }
{}

/// A path has a child in the namespace exactly where its row has a row under it.
pub fn children_are_rows_under_a_row()
    ensures { ChildrenAreRowsUnderARow }
{}

/// What is told of the children of a path, in the order of their names, is what is told of the rows under its
/// row.
pub fn children_are_listed_as_their_rows()
    ensures { ChildrenAreListedAsRows }
{}

/// Each row bears the flag that the row of its key bore, and a row of a new key bears none, after a row changed that
/// bears what the old one bore, and after a row went. So where no row bore a flag, none does then.
pub fn flags_stay()
    ensures changed { ChangedRowKeepsFlags }
    ensures gone { GoneRowKeepsFlags }
    ensures none { NoFlagsStayNone }
{}

/// Where the quota rows of the directories along a path are recounted by what comes and goes there, the rows stand
/// for the same, and quota rows count what is used once a row changed, once one went, and once new directories came.
pub fn quota_rows_count_what_is_used()
    ensures stands { RecountedStandForTheSame }
    ensures changed { ChangedRowIsCounted }
    ensures gone { GoneRowIsCounted }
    ensures directories { NewDirsAreCounted }
{}

/// Where a directory's row changes along with its own quota row and says whether it has one, the rows stand for the
/// namespace with the new entry; and the quota rows count what is used, where the directory's own does.
pub fn a_row_gets_another_quota()
    ensures stands { RequotedRowChangesItsEntry }
    ensures counts { RequotedRowIsCounted }
{}

/// Writes of just the quota rows along a path, each as what it becomes, recount them.
pub fn written_quota_rows_are_recounted()
    ensures { WrittenQuotasAreRecounted }
{}
