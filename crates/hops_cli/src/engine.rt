//! The calls of a script, run in their order.

ghost use Rattle.std.specs.Prelude.{◌≡◌, ◌≤◌, ◌∷◌, [], true, length, IfOk, OnOk};
ghost use Rattle.name_space.specs.Script.{users_of};
ghost use Rattle.std.specs.List.{list_all};
ghost use Rattle.name_space.specs.Script.{is_client};
ghost use Rattle.hops_cli.specs.Built.{is_built_client, IsBuilt};
ghost use Rattle.hops_cli.specs.Run.{IsRun};
ghost use Rattle.hops_cli.specs.Turning.{IsNew, AreTurned, AreAllTurned, users_in};

use crate::turn::{CLIENT, run_call};
use commit_log::{AnswerLine, Book};
use db_state::Settings;
use hops_base::{NoMemory, StopList};
use hops_core::Core;
use report_text::{AnswerList, TreeList};
use script_text::{ClientCalls, Script};
use std::alloc::Global;

/// What a run leaves.
#[derive(Drop)]
pub struct Ran {
    /// All that happened.
    pub book: Book,
    /// What was answered, by client and call.
    pub answers: AnswerList,
    /// The last namespace in path order, `/` first.
    pub tree: TreeList,
}

/// Runs the clients' calls in order on a new namespace.
pub fn run(alloc: Global, script: &Script) -> Result<Ran, NoMemory>
    requires { IsBuilt script.now }
    ensures { IfOk result (λ ran. IsRun script.now ran.book.notes ran.answers.items ran.tree.items) }
{
    let settings = settings_of(alloc, script)?;
    let mut core = Core::open(alloc, &settings)?;
    let mut answers = AnswerList::new(alloc);
    run_clients(&mut core, script.clients(), &mut answers)?;
    core.kept();
    let tree = core.tree()?;
    Ok(Ran {
        book: core.into_book(),
        answers,
        tree,
    })
}

// What the core is to know of the script.
fn settings_of(alloc: Global, script: &Script) -> Result<Settings, NoMemory>
    requires { IsBuilt script.now }
    ensures { IfOk result (λ settings. settings ≡ record { namenodes = script.now.namenodes; users = users_of script.now; grace = script.now.grace; stops = script.now.stops }) }
{
    Ok(Settings::new(
        script.namenodes(),
        script.users(alloc)?,
        script.grace(),
        StopList::new(alloc),
    ))
}

// There is at most one client.
fn run_clients(
    core: &mut Core,
    clients: &[ClientCalls],
    answers: &mut AnswerList,
) -> Result<(), NoMemory>
    requires few { length clients.now ≤ 1 }
    requires small { list_all is_built_client clients.now ≡ true }
    requires valid { list_all is_client clients.now ≡ true }
    requires new { IsNew (users_in clients.now) core.old answers.old.items }
    ensures { OnOk result (AreAllTurned core.old.stored.settings clients.now core.new answers.new.items) }
{
    match clients {
        [] => Ok(()),
        [client] => run_client(core, client, answers),
        _ => unreachable!(),
    }
}

fn run_client(
    core: &mut Core,
    client: &ClientCalls,
    answers: &mut AnswerList,
) -> Result<(), NoMemory>
    requires small { is_built_client client.now ≡ true }
    requires valid { is_client client.now ≡ true }
    requires new { IsNew (client.now.user ∷ []) core.old answers.old.items }
    ensures { OnOk result (AreTurned core.old.stored.settings client.now.calls (length client.now.calls) core.new answers.new.items) }
{
    for (i, call) in client.calls().iter().enumerate() {
        let number = i as u32 + 1;
        let end = run_call(core, number, call)?;
        answers.reserve(1)?;
        answers.push(AnswerLine {
            client: CLIENT,
            call: number,
            end,
        });
    }
    Ok(())
}
