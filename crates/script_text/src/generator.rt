//! Scripts that are generated.

ghost use Rattle.std.specs.Prelude.{◌≡◌, ◌≤◌, ◌<◌, map, IfOk};
ghost use Rattle.std.specs.List.{range_with_len};
ghost use Rattle.name_space.specs.Script.{most_clients};
ghost use Rattle.script_text.specs.Generator.{most_generated_calls, draw, any_below, any_truth, any_name, any_path, any_call, times, first_state, user_generated, client_generated, generated};

use crate::script::{CallList, ClientCalls, ClientList, DEFAULT_GRACE, DEFAULT_TRIES, Script};
use hops_base::{Name, NoMemory, Path, StopList, User};
use name_space::Call;
use std::alloc::Global;

// A draw multiplies the state by the one and takes the remainder by the other.
const MULTIPLIER: u64 = 48_271;

const MODULUS: u64 = 2_147_483_647;

// The most namenodes of what is generated.
const MOST_GENERATED_NAMENODES: u32 = 4;

/// The script of a seed: this many clients, with this many calls each, on as many namenodes as there are
/// clients and at most 4. What else it says has its default. A seed and counts give one script.
///
/// The user of client `c`, from 0, is `u` and `c` in decimal. The state of its draws begins as
/// `x = 1 + (seed + c) mod 2147483646`; a draw sets `x` to `48271 x mod 2147483647` and gives it. What
/// is drawn below `n` is the draw's remainder by `n`. For a call its kind is drawn below 16, then a path, and
/// then what else it is made with. The kinds from 0 are mkdirs three times, create twice, append, grow,
/// close, stat twice, list, a delete that is recursive and one that isn't, rename, chmod and set_quota.
/// create overwrites where a draw is odd, grow adds 1 to 1,000 bytes, the mode is below 512, and the quota
/// is of 1 to 50 names alone. A path has 1 to 3 names, each of `n0` to `n5`. The only error is want of
/// memory.
pub fn generate(alloc: Global, seed: u32, clients: u32, calls: u32) -> Result<Script, NoMemory>
    requires some { 1 ≤ clients }
    requires few { clients ≤ most_clients }
    requires short { calls ≤ most_generated_calls }
    ensures { IfOk result (λ script. script ≡ generated seed clients calls) }
{
    let namenodes = clients.min(MOST_GENERATED_NAMENODES);
    let clients = clients_of(alloc, seed, clients, calls)?;
    let stops = StopList::new(alloc);
    Ok(Script::new(
        namenodes,
        clients,
        stops,
        DEFAULT_TRIES,
        DEFAULT_GRACE,
        true,
    ))
}

// The clients that are generated, so many of them.
fn clients_of(alloc: Global, seed: u32, clients: u32, calls: u32) -> Result<ClientList, NoMemory>
    ensures { IfOk result (λ list. list.items ≡ map (client_generated seed calls) (range_with_len 0 clients)) }
{
    let mut list = ClientList::new(alloc);
    list.reserve(u64::from(clients))?;
    for client in 0..clients {
        list.push(client_of(alloc, seed, client, calls)?);
    }
    Ok(list)
}

// The client of this number.
fn client_of(alloc: Global, seed: u32, client: u32, calls: u32) -> Result<ClientCalls, NoMemory>
    ensures { IfOk result (λ made. made ≡ client_generated seed calls client) }
{
    let user = user_generated(alloc, client)?;
    let calls = Draws::new(seed, client).calls(alloc, calls)?;
    Ok(ClientCalls::new(user, calls))
}

// The user of the client of this number.
fn user_generated(alloc: Global, client: u32) -> Result<User, NoMemory>
    ensures { IfOk result (λ user. user ≡ user_generated client) }
{
    let text = format!(in alloc; "u{client}")?;
    match User::read(alloc, &text) {
        Ok(user) => Ok(user),
        Err(_) => Err(NoMemory),
    }
}

// The draws of a client.
#[derive(Drop)]
struct Draws {
    state: u32,
}

impl Draws {
    // The draws of the client of this number.
    fn new(seed: u32, client: u32) -> Draws
        ensures { result.state ≡ first_state seed client }
    {
        let past_first = (u64::from(seed) + u64::from(client)) % (MODULUS - 1);
        Draws {
            state: 1 + past_first as u32,
        }
    }

    fn draw(&mut self) -> u32
        ensures { (result, self.new.state) ≡ draw self.old.state }
    {
        self.state = (MULTIPLIER * u64::from(self.state) % MODULUS) as u32;
        self.state
    }

    // A number below this one.
    fn below(&mut self, n: u32) -> u32
        requires { 0 < n }
        ensures drawn { (result, self.new.state) ≡ any_below n self.old.state }
        ensures less { result < n }
    {
        self.draw() % n
    }

    fn truth(&mut self) -> bool
        ensures { (result, self.new.state) ≡ any_truth self.old.state }
    {
        self.draw() % 2 == 1
    }

    fn name(&mut self, alloc: Global) -> Result<Name, NoMemory>
        ensures { IfOk result (λ name. (name, self.new.state) ≡ any_name self.old.state) }
    {
        let digit = self.below(6);
        let text = format!(in alloc; "n{digit}")?;
        match Name::read(alloc, &text) {
            Ok(name) => Ok(name),
            Err(_) => Err(NoMemory),
        }
    }

    fn path(&mut self, alloc: Global) -> Result<Path, NoMemory>
        ensures { IfOk result (λ path. (path, self.new.state) ≡ any_path self.old.state) }
    {
        let names = 1 + self.below(3);
        let mut path = Path::root(alloc);
        for _ in 0..names {
            let name = self.name(alloc)?;
            path = path.with(&name)?;
        }
        Ok(path)
    }

    fn call(&mut self, alloc: Global) -> Result<Call, NoMemory>
        ensures { IfOk result (λ call. (call, self.new.state) ≡ any_call self.old.state) }
    {
        let kind = self.below(16);
        let path = self.path(alloc)?;
        Ok(match kind {
            0 | 1 | 2 => Call::Mkdirs(path),
            3 | 4 => Call::Create(path, self.truth()),
            5 => Call::Append(path),
            6 => Call::Grow(path, u64::from(1 + self.below(1000))),
            7 => Call::Close(path),
            8 | 9 => Call::Stat(path),
            10 => Call::List(path),
            11 => Call::Delete(path, true),
            12 => Call::Delete(path, false),
            13 => Call::Rename(path, self.path(alloc)?),
            14 => Call::Chmod(path, self.below(512) as u16),
            _ => Call::SetQuota(path, Some(u64::from(1 + self.below(50))), None),
        })
    }

    // The calls that are drawn, so many of them.
    fn calls(&mut self, alloc: Global, calls: u32) -> Result<CallList, NoMemory>
        ensures { IfOk result (λ list. (list.items, self.new.state) ≡ times calls any_call self.old.state) }
    {
        let mut list = CallList::new(alloc);
        list.reserve(u64::from(calls))?;
        for _ in 0..calls {
            list.push(self.call(alloc)?);
        }
        Ok(list)
    }
}

#[cfg(test)]
mod tests;
