//! Worked examples: runs of calls and what each is answered, and the ends of the ranges. Each pins a definition in `specs/`,
//! and is proved by computing it.

ghost use Rattle.name_space.specs.CallExamples.{file_in_the_way, a_directory_is_no_file, a_file_is_no_directory, nothing_stands_there, the_root_is_fixed, delete_answers, what_stat_tells, children_in_byte_order, one_thing_is_set, OneWriter, AnotherWriter, an_owner_stays, RoomIsNotRead};
ghost use Rattle.name_space.specs.QuotaExamples.{name_quota, all_missing_names_count, byte_quota, from_the_root_down, names_before_bytes, past_a_quota, rename_into_full_directory, all_that_moves_counts, quotas_come_last};
ghost use Rattle.name_space.specs.RenameExamples.{rename_rules, rename_rules_in_order, rename_into_the_root, rename_onto_itself, rename_carries_all_below};
ghost use Rattle.name_space.specs.CutExamples.{CutCases};
ghost use Rattle.name_space.specs.NamespaceExamples.{NoNamespaces};
ghost use Rattle.name_space.specs.FormExamples.{words_of_calls, three_calls_look, paths_in_order, NameablePaths, EachPathCounts, NumbersInRange};
ghost use Rattle.name_space.specs.ScriptExamples.{WhoCalls, Defaults, PartsInRange, ScriptCases};

// ---- the calls on files and directories

/// Nothing stands below a file.
pub fn file_in_the_way()
    ensures { file_in_the_way }
{}

/// What needs a file is refused at a directory.
pub fn a_directory_is_no_file()
    ensures { a_directory_is_no_file }
{}

/// What needs a directory is refused at a file.
pub fn a_file_is_no_directory()
    ensures { a_file_is_no_directory }
{}

/// A call that needs something at its path is refused where nothing stands.
pub fn nothing_stands_there()
    ensures { nothing_stands_there }
{}

/// The root has its mode, its owner and no quotas, and keeps them.
pub fn the_root_is_fixed()
    ensures { the_root_is_fixed }
{}

/// What a removal answers at the root, at a missing path, at a file and at a directory with a child.
pub fn delete_answers()
    ensures { delete_answers }
{}

/// What is told of a file that is written, and of directories.
pub fn what_stat_tells()
    ensures { what_stat_tells }
{}

/// A directory lists its children in the byte order of their names, and nothing below them.
pub fn children_in_byte_order()
    ensures { children_in_byte_order }
{}

/// A change of a mode or of quotas leaves all else as it is.
pub fn one_thing_is_set()
    ensures { one_thing_is_set }
{}

/// A file has one writer, and whoever removes the file ends the writing.
pub fn one_writer()
    ensures { OneWriter }
{}

/// Whoever makes a file anew is its owner and its writer.
pub fn another_writer()
    ensures { AnotherWriter }
{}

/// Whoever appends to a closed file is its writer, and the owner stays.
pub fn an_owner_stays()
    ensures { an_owner_stays }
{}

/// A listing reads the same however much room it has, and each other reply reads as it is.
pub fn room_is_not_read()
    ensures { RoomIsNotRead }
{}

// ---- the quota rule

/// A directory with a quota on names counts itself, and a quota below the usage refuses each further name.
pub fn name_quota()
    ensures { name_quota }
{}

/// Each missing name on the way counts.
pub fn all_missing_names_count()
    ensures { all_missing_names_count }
{}

/// The bytes of a file count in each directory above it, from the root on.
pub fn byte_quota()
    ensures { byte_quota }
{}

/// Of two directories that have no room, the one nearer to the root is told.
pub fn from_the_root_down()
    ensures { from_the_root_down }
{}

/// A directory that has room for neither names nor bytes is told for its names.
pub fn names_before_bytes()
    ensures { names_before_bytes }
{}

/// Past a quota only that is refused of which some more would come.
pub fn past_a_quota()
    ensures { past_a_quota }
{}

/// A rename within a full directory is granted, and one into it is refused.
pub fn rename_into_full_directory()
    ensures { rename_into_full_directory }
{}

/// All that a rename brings along counts.
pub fn all_that_moves_counts()
    ensures { all_that_moves_counts }
{}

/// Each other refusal comes before that of a quota.
pub fn quotas_come_last()
    ensures { quotas_come_last }
{}

// ---- the rename rules

/// Which rename is refused, and why.
pub fn rename_rules()
    ensures { rename_rules }
{}

/// That the source is missing is told first, and then that it can't move below itself.
pub fn rename_rules_in_order()
    ensures { rename_rules_in_order }
{}

/// A rename to the root goes into it.
pub fn rename_into_the_root()
    ensures { rename_into_the_root }
{}

/// A rename into the directory where the source stands is granted, and nothing changes.
pub fn rename_onto_itself()
    ensures { rename_onto_itself }
{}

/// A rename carries along what stands below, with its length, writer, mode and quotas.
pub fn rename_carries_all_below()
    ensures { rename_carries_all_below }
{}

// ---- cuts

/// What may be cut off below a path: paths that stand there, each once, with all that stands below them.
pub fn cut_cases()
    ensures { CutCases }
{}

// ---- namespaces

/// Lists of paths and entries that are no namespace.
pub fn no_namespaces()
    ensures { NoNamespaces }
{}

// ---- the form of calls

/// The word of each call.
pub fn words_of_calls()
    ensures { words_of_calls }
{}

/// Three calls only look.
pub fn three_calls_look()
    ensures { three_calls_look }
{}

/// Each call names one path, and a rename its source and then its destination.
pub fn paths_in_order()
    ensures { paths_in_order }
{}

/// The paths that a call may name, at the ends of their ranges and beyond them.
pub fn nameable_paths()
    ensures { NameablePaths }
{}

/// Each path of each call is to be in its range.
pub fn each_path_counts()
    ensures { EachPathCounts }
{}

/// Each number of a call at the ends of its range and beyond them.
pub fn numbers_in_range()
    ensures { NumbersInRange }
{}

// ---- scripts

/// Clients are counted from 0, and their calls from 1.
pub fn who_calls()
    ensures { WhoCalls }
{}

/// What a script says of tries and beats where it says nothing.
pub fn defaults()
    ensures { Defaults }
{}

/// The parts of a script at the ends of their ranges and beyond them.
pub fn parts_in_range()
    ensures { PartsInRange }
{}

/// Which scripts are within all ranges.
pub fn script_cases()
    ensures { ScriptCases }
{}
