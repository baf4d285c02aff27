//! Laws of the rows as a file comes.

ghost use Rattle.inode_ops.specs.Laws.{NewFileKeepsTheTree, NewFileHasTheNextIds, NewFileAddsItsEntries, NewFileKeepsQuotas, NewFileKeepsFlags, NewFileIsCounted};

/// Rows with a chain of new directories below a directory and a new file below them spell a tree, stand for the
/// namespace with them, and have the ids that a numbering gives to their paths in turn; the quota rows stay, and count
/// what is used once those along the path were recounted; and each row bears the flag that the row of its key bore.
pub fn a_file_comes_below_new_directories()
    ensures tree { NewFileKeepsTheTree }
    ensures given { NewFileHasTheNextIds }
    ensures stands { NewFileAddsItsEntries }
    ensures quotas { NewFileKeepsQuotas }
    ensures flags { NewFileKeepsFlags }
    ensures counts { NewFileIsCounted }
{}
