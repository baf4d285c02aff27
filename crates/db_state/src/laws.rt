//! Laws of what paths spell over the inode rows, of new rows, and of consistent rows and books.

ghost use Rattle.db_state.specs.Laws.{RowHasOnePath, PathHasOnePlace, NewRowAddsItsPath, NewRowKeepsTheTree, NewRowAddsItsEntry};
ghost use Rattle.db_state.specs.Laws.{NewDirsKeepTheTree, NewDirsAddTheirEntries, NewDirsHaveTheNextIds, NewDirsKeepQuotas};
ghost use Rattle.db_state.specs.Laws.{OpeningIsATree, OpeningStands, OpeningIsConsistent, QuietNotesKeepItConsistent};

/// A row has one path.
pub fn a_row_has_one_path()
    ensures { RowHasOnePath }
{}

/// The place that the rows have for a path is determined by the path and the rows.
pub fn a_path_has_one_place()
    ensures { PathHasOnePlace }
{}

/// A new row adds its path, and no other.
pub fn a_new_row_adds_its_path()
    ensures { NewRowAddsItsPath }
{}

/// Rows with a new one under a directory spell a tree again.
pub fn a_new_row_keeps_the_tree()
    ensures { NewRowKeepsTheTree }
{}

/// Rows with a new one that has no quota stand for the namespace with its entry.
pub fn a_new_row_adds_its_entry()
    ensures { NewRowAddsItsEntry }
{}

/// The opening rows spell a tree, and stand for the opening namespace.
pub fn the_opening_rows_stand()
    ensures tree { OpeningIsATree }
    ensures stands { OpeningStands }
{}

/// Rows with a chain of new directories below a directory spell a tree again, stand for the namespace with them, and have
/// the ids that a numbering gives to their paths in turn; the quota rows stay.
pub fn a_chain_of_new_rows_adds_its_directories()
    ensures tree { NewDirsKeepTheTree }
    ensures stands { NewDirsAddTheirEntries }
    ensures given { NewDirsHaveTheNextIds }
    ensures quotas { NewDirsKeepQuotas }
{}

/// Before anything happened the rows and the book are consistent.
pub fn the_opening_is_consistent()
    ensures { OpeningIsConsistent }
{}

/// Consistent rows and book stay so with one note more that is neither a Did nor a Cut.
pub fn a_quiet_note_keeps_it_consistent()
    ensures { QuietNotesKeepItConsistent }
{}
