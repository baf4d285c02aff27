//! Laws of what a book says is held, set, there and numbered, and of the book of a run of one client.

ghost use Rattle.commit_log.specs.Laws as law;

/// A lock is held exactly where it was taken and nothing after that gave it back.
pub fn locks_are_taken_and_not_given_back()
    ensures taken { law.HeldWasTaken }
    ensures held { law.TakenIsHeld }
{}

/// A session that has answered or given its locks back holds none, nor does one whose namenode is gone.
pub fn ended_sessions_hold_nothing()
    ensures gave { law.GaveHoldsNothing }
    ensures did { law.DidHoldsNothing }
    ensures gone { law.GoneHoldsNothing }
{}

/// Where a book is sound, two sessions hold one key at its end only where both share it.
pub fn sound_locks_are_shared()
    ensures { law.SoundLocksAreShared }
{}

/// The locks that a book lists are those that are held, in a sound book each once.
pub fn held_locks_are_listed()
    ensures held { law.HeldIsListed }
    ensures listed { law.ListedIsHeld }
    ensures once { law.ListedOnce }
{}

/// A book whose numbers go up opens each session once and flags each operation once.
pub fn numbers_are_new()
    ensures session { law.SessionsAreNew }
    ensures operation { law.OperationsAreNew }
{}

/// Where operations are numbered in turn, those that a book lists are those of its flags, in their order.
pub fn numbered_flags_are_listed()
    ensures { law.FlagsAreListed }
{}

/// In the orderly book of a script's run each session is for one of the script's calls, at one of its
/// namenodes, and each answer is to the call that the script has there.
pub fn orderly_books_are_of_their_script()
    ensures opened { law.OpenedForTheScript }
    ensures answered { law.AnsweredForTheScript }
{}

/// Openings and flags stay as they were told first.
pub fn what_was_told_stays()
    ensures opening { law.OpeningsStay }
    ensures flag { law.FlaggingsStay }
{}

/// A flag is set by its own note, and ended by its session's answer or by a reclaim.
pub fn flags_are_set_and_ended()
    ensures set { law.FlagIsSet }
    ensures answered { law.AnswerEndsFlags }
    ensures reclaimed { law.ReclaimEndsFlag }
    ensures left { law.OthersLeaveFlags }
{}

/// Answers and cuts alone change the namespace of a book, and the ids follow it.
pub fn only_answers_and_cuts_change_paths()
    ensures paths { law.OthersLeaveSpace }
    ensures ids { law.IdsFollowSpace }
    ensures numbered { law.PathsHaveIds }
{}

/// The journal has the numbers of the Did and Cut notes, rising. These notes alone tell the history: without
/// the others it is as legal, and its last namespace is the same.
pub fn the_journal_tells_the_history()
    ensures notes { law.JournalHasTheHistory }
    ensures rises { law.JournalRises }
    ensures legal { law.LegalWithoutOthers }
    ensures enough { law.LegalByTheHistory }
    ensures space { law.SpaceByTheHistory }
{}

/// A namenode's commits are counted note by note. Once it is gone its sessions are void, and once it is
/// evicted their flags are live no more.
pub fn namenodes_are_counted_and_lost()
    ensures commits { law.CommitsAreCounted }
    ensures void { law.GoneVoidsSessions }
    ensures live { law.EvictionEndsLife }
{}

/// One turn more writes its two notes and its line behind those of the turns before. The book stays legal
/// where the reply is that of the call on the last namespace, and that of the call is the last one then.
pub fn turns_come_one_after_another()
    ensures notes { law.TurnWritesTwoNotes }
    ensures lines { law.TurnWritesALine }
    ensures count { law.TurnsHaveTwoNotes }
    ensures legal { law.TurnStaysLegal }
    ensures space { law.TurnGoesOn }
{}

/// The book of one client that makes its calls in turn is legal exactly where its replies are those of the
/// plain calls one after another, and its last namespace is the one after them.
pub fn a_single_run_answers_as_plain_calls()
    ensures replies { law.LegalTurnsArePlain }
    ensures legal { law.PlainTurnsAreLegal }
    ensures space { law.SpaceOfTurnsIsPlain }
{}

/// The book and the lines of such a run hold together, whatever it answers.
pub fn a_single_run_is_in_order()
    ensures orderly { law.SingleIsOrderly }
    ensures sound { law.SingleIsSound }
    ensures answers { law.SingleAnswers }
    ensures licensed { law.SingleIsLicensed }
    ensures explained { law.SingleIsExplained }
{}

/// Where the book is legal too, the run is told by its book, its lines and its last namespace. It keeps what
/// runs keep before there are locks.
pub fn a_single_run_is_told()
    ensures told { law.SingleIsTold }
    ensures kept { law.SingleIsKept }
{}
