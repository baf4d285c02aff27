//! Laws of all that the core keeps: it holds at first, each kind of change keeps it, and no sessions wait for each
//! other in a circle.

ghost use Rattle.db_state.specs.CoreLaws.{OpeningIsACore, OpeningASessionKeepsIt, TakingAKeyKeepsIt, CountingACallKeepsIt, MeetingALockKeepsIt, MeetingAChangeKeepsIt, GoingOnKeepsIt, BeginningAnewKeepsIt, EndingKeepsIt, AnsweringKeepsIt, NobodyWaitsInACircle};

/// Before anything happened, with whatever settings, what the core keeps holds.
pub fn it_holds_at_first()
    ensures { OpeningIsACore }
{}

/// It holds once a session is opened: client and namenode exist, the client has no open session, and it makes a valid
/// call, the next one by number.
pub fn opening_a_session_keeps_it()
    ensures { OpeningASessionKeepsIt }
{}

/// It holds once a session has taken the next key of its plan, where no other session keeps it away.
pub fn taking_a_key_keeps_it()
    ensures { TakingAKeyKeepsIt }
{}

/// It holds once a client's next call is counted, though no session was opened for it.
pub fn counting_a_call_keeps_it()
    ensures { CountingACallKeepsIt }
{}

/// It holds once a session has met a lock of another that keeps it from its next key.
pub fn meeting_a_lock_keeps_it()
    ensures { MeetingALockKeepsIt }
{}

/// It holds once a running session has met a change of what it had found: it gives its locks back, tells since when,
/// and begins a new attempt.
pub fn meeting_a_change_keeps_it()
    ensures { MeetingAChangeKeepsIt }
{}

/// It holds once a running session has gone on without a note: it holds what it held, and what it has read is as its
/// new stage says.
pub fn going_on_keeps_it()
    ensures { GoingOnKeepsIt }
{}

/// It holds once a running session has given its locks back, and begins a new attempt or ends.
pub fn giving_back_keeps_it()
    ensures anew { BeginningAnewKeepsIt }
    ensures end { EndingKeepsIt }
{}

/// It holds once a session has answered from reads that stand, with writes within its locks. What other sessions have
/// read stands on.
pub fn answering_keeps_it()
    ensures { AnsweringKeepsIt }
{}

/// Among sessions each of which asks next for a key that the one behind it holds, there is no circle.
pub fn nobody_waits_in_a_circle()
    ensures { NobodyWaitsInACircle }
{}
