//! One call of the one client, from its opening to its answer.

ghost use Rattle.std.specs.Prelude.{◌≡◌, ◌+◌, ◌<◌, length, IfOk, OnOk};
ghost use Rattle.hops_base.specs.Ids.{client, node};
ghost use Rattle.hops_core.specs.Events.{CanBegin};
ghost use Rattle.hops_cli.specs.Turning.{rank, ComesTo, Finishes, IsBegun, IsOnItsWay, IsTurned};

use commit_log::CallEnd;
use db_state::Phase;
use hops_base::{ClientNo, NoMemory, NodeNo, SessionId};
use hops_core::{BeginFault, Core, Progress};
use name_space::Call;

/// The one client of a script that is run.
pub const CLIENT: ClientNo = ClientNo(0);

// Its one namenode.
const NODE: NodeNo = NodeNo(0);

/// Begins the client's next call, and makes the steps of its session, phase by phase, until it is answered. There is nobody
/// whom it could meet.
pub fn run_call(core: &mut Core, number: u32, call: &Call) -> Result<CallEnd, NoMemory>
    requires one { length core.old.stored.settings.users ≡ 1 }
    requires can { CanBegin core.old (client 0) number call.now (node 0) }
    ensures { IfOk result (λ end. IsTurned core.old core.new number call.now end) }
{
    let s = begin(core, number, call)?;
    leave(core, s, Phase::Resolve)?;
    leave(core, s, Phase::Lock)?;
    leave(core, s, Phase::Read)?;
    leave(core, s, Phase::Reread)?;
    answer(core, s)
}

// Opens a session for the client's next call.
fn begin(core: &mut Core, number: u32, call: &Call) -> Result<SessionId, NoMemory>
    requires one { length core.old.stored.settings.users ≡ 1 }
    requires can { CanBegin core.old (client 0) number call.now (node 0) }
    ensures { IfOk result (λ s. IsBegun core.old s number call.now core.new) }
{
    match core.begin(CLIENT, number, call, NODE) {
        Ok(s) => Ok(s),
        Err(BeginFault::NoMemory) => Err(NoMemory),
        Err(BeginFault::NodeGone(_)) => unreachable!(),
    }
}

// Makes the steps of a session until it has left this phase.
fn leave(core: &mut Core, s: SessionId, phase: Phase) -> Result<(), NoMemory>
    requires comes { IsOnItsWay s (rank phase) core.old }
    requires goes { rank phase < 4 }
    ensures { OnOk result (ComesTo s (rank phase) core.old (rank phase + 1) core.new) }
{
    while core.phase(s) == phase {
        core.kept();
        match core.advance(s, &[]) {
            Progress::More => (),
            Progress::NoMemory => return Err(NoMemory),
            _ => unreachable!(),
        }
    }
    Ok(())
}

// Makes the step of a session that answers its call.
fn answer(core: &mut Core, s: SessionId) -> Result<CallEnd, NoMemory>
    requires { IsOnItsWay s 4 core.old }
    ensures { IfOk result (λ end. Finishes s 4 core.old core.new end) }
{
    core.kept();
    match core.advance(s, &[]) {
        Progress::Done(i, reply) => Ok(CallEnd::Done(i, reply)),
        Progress::NoMemory => Err(NoMemory),
        _ => unreachable!(),
    }
}
