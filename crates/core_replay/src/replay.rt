//! Events, made one after another, and the text that tells of them.

ghost use Rattle.std.specs.Prelude.{◌≡◌, [], true, None, IfOk, OnOk, slice_get};
ghost use Rattle.std.specs.List.{list_all};
ghost use Rattle.db_state.specs.Core.{IsCore};
ghost use Rattle.core_replay.specs.Built.{is_built_event, first_unbuilt};
ghost use Rattle.core_replay.specs.Replay.{settings_of, Comes, IsReplayOf};
ghost use Rattle.core_replay.specs.Parts.{AreTold, IsTold};

use crate::calls::call_of;
use crate::listed::Listed;
use crate::told::{event_value, has_memory};
use db_state::Settings;
use hops_base::{NoMemory, StopList};
use hops_core::{Core, EventAnswer, try_advance, try_begin, try_quit};
use report_text::{add_counts, add_line, add_notes, add_places};
use script_text::Script;
use std::alloc::Global;

/// Makes events in their order on the opening core of a script. The text has, for each, the lines of the notes that it wrote
/// and the line of its answer, then a line for each path that is left, and the counts.
pub fn replay(alloc: Global, script: &Script, events: &[Listed]) -> Result<Vec<u8>, NoMemory>
    requires { first_unbuilt script.now events.now ≡ None }
    ensures { IfOk result (λ text. IsReplayOf script.now events.now text.items) }
{
    let settings = settings_of(alloc, script)?;
    let mut core = Core::open(alloc, &settings)?;
    let mut text = Vec::new(alloc);
    make_all(alloc, &mut core, script, events, &mut text)?;
    core.kept();
    let tree = core.tree()?;
    add_places(alloc, &mut text, tree.as_slice())?;
    let (notes, made) = (core.book().len(), events.len() as u64);
    add_counts(alloc, &mut text, notes, made, tree.len())?;
    Ok(text)
}

// What the core is to know of a script by which no namenode stops.
fn settings_of(alloc: Global, script: &Script) -> Result<Settings, NoMemory>
    requires { script.now.stops ≡ [] }
    ensures { IfOk result (λ settings. settings ≡ settings_of script.now) }
{
    Ok(Settings::new(
        script.namenodes(),
        script.users(alloc)?,
        script.grace(),
        StopList::new(alloc),
    ))
}

// Makes the events, and adds their lines.
fn make_all(
    alloc: Global,
    core: &mut Core,
    script: &Script,
    events: &[Listed],
    text: &mut Vec<u8>,
) -> Result<(), NoMemory>
    requires new { core.old.stored.notes ≡ [] }
    requires empty { text.old.items ≡ [] }
    requires built { list_all (is_built_event script.now) events.now ≡ true }
    ensures { OnOk result (AreTold script.now core.old events.now core.new text.new.items) }
{
    for (place, event) in events.iter().enumerate() {
        make_one(alloc, core, script, place as u64, event, text)?;
    }
    Ok(())
}

// Makes the event at this place, and adds its lines.
fn make_one(
    alloc: Global,
    core: &mut Core,
    script: &Script,
    place: u64,
    event: &Listed,
    text: &mut Vec<u8>,
) -> Result<(), NoMemory>
    requires { is_built_event script.now event.now ≡ true }
    ensures { OnOk result (IsTold script.now core.old place event.now core.new text.old.items text.new.items) }
{
    let before = core.book().len();
    let answer = make(core, script, event);
    core.kept();
    if !has_memory(&answer) {
        return Err(NoMemory);
    }
    let notes = core.book().notes();
    add_notes(alloc, text, before, &notes[before as usize..])?;
    let line = event_value(alloc, place, &answer)?;
    add_line(alloc, text, &line)?;
    Ok(())
}

// Makes the event.
fn make(core: &mut Core, script: &Script, event: &Listed) -> EventAnswer
    requires { is_built_event script.now event.now ≡ true }
    ensures { Comes script.now core.old event.now result core.new }
{
    match event {
        Listed::Begin(client, number, node) => match call_of(script, *client, *number) {
            Some(call) => try_begin(core, *client, *number, call, *node),
            None => EventAnswer::Skipped,
        },
        Listed::Advance(s, hints) => try_advance(core, *s, hints),
        Listed::Quit(s) => try_quit(core, *s),
        Listed::Stop(_) | Listed::Beat(_) | Listed::Sweep => unreachable!(),
    }
}
