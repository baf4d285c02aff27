//! Any events, one after another.

ghost use Rattle.std.specs.Prelude.{◌≡◌, IfOk, OnErr};
ghost use Rattle.db_state.specs.Core.{IsCore};
ghost use Rattle.hops_core.specs.Events.{Happens, Runs};

use crate::begin_fault::BeginFault;
use crate::progress::Progress;
use crate::shared::Core;
use hops_base::{ClientNo, Hint, ItemList, NoMemory, NodeNo, SessionId};
use name_space::Call;
use std::alloc::Global;

/// What may happen to the core.
#[derive(Debug, Drop)]
pub enum Event {
    /// A client begins a call by this number at a namenode.
    Begin(ClientNo, u32, Call, NodeNo),
    /// A session makes one step, with these hints.
    Advance(SessionId, ItemList<Hint>),
    /// A session is given up.
    Quit(SessionId),
}

/// What is told of an event.
#[derive(Debug, Drop)]
pub enum EventAnswer {
    /// It can't be made, and nothing changes.
    Skipped,
    /// The session that was opened.
    Opened(SessionId),
    /// None was opened.
    Refused(BeginFault),
    /// What the session's step came to.
    Advanced(Progress),
    /// The session has ended.
    Ended,
}

/// Makes one event, if it can be made.
pub fn happen(core: &mut Core, event: &Event) -> EventAnswer
    ensures { Happens core.old event.now result core.new }
{
    match event {
        Event::Begin(client, number, call, node) => try_begin(core, *client, *number, call, *node),
        Event::Advance(s, hints) => try_advance(core, *s, hints),
        Event::Quit(s) => try_quit(core, *s),
    }
}

/// Begins a call, if it can be begun.
pub fn try_begin(
    core: &mut Core,
    client: ClientNo,
    number: u32,
    call: &Call,
    node: NodeNo,
) -> EventAnswer
    ensures { Happens core.old (Event.Begin client number call.now node) result core.new }
{
    if !core.can_begin(client, number, call, node) {
        return EventAnswer::Skipped;
    }
    match core.begin(client, number, call, node) {
        Ok(s) => EventAnswer::Opened(s),
        Err(fault) => EventAnswer::Refused(fault),
    }
}

/// Makes one step of a session, with these hints, if it is open.
pub fn try_advance(core: &mut Core, s: SessionId, hints: &ItemList<Hint>) -> EventAnswer
    ensures { Happens core.old (Event.Advance s hints.now) result core.new }
{
    if !core.is_open(s) {
        return EventAnswer::Skipped;
    }
    EventAnswer::Advanced(core.advance(s, hints.as_slice()))
}

/// Ends a session, if it is open.
pub fn try_quit(core: &mut Core, s: SessionId) -> EventAnswer
    ensures { Happens core.old (Event.Quit s) result core.new }
{
    if !core.is_open(s) {
        return EventAnswer::Skipped;
    }
    core.quit(s);
    EventAnswer::Ended
}

/// Makes events in their order, and tells what came of each. Whatever they are, all is as it always is after each of them.
/// Room for what is told is made first: want of memory for it changes nothing.
pub fn run_events(
    alloc: Global,
    core: &mut Core,
    events: &[Event],
) -> Result<ItemList<EventAnswer>, NoMemory>
    ensures ok { IfOk result (λ told. Runs core.old events.now told.items core.new) }
    ensures err { OnErr result (core.new ≡ core.old) }
    ensures kept { IsCore core.new }
{
    core.kept();
    let mut told = ItemList::new(alloc);
    told.reserve(events.len() as u64)?;
    for event in events {
        let answer = happen(core, event);
        core.kept();
        told.push(answer);
    }
    core.kept();
    Ok(told)
}
