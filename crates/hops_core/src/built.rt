//! Which calls a session carries out.

ghost use Rattle.std.specs.Prelude.{◌≡◌};
ghost use Rattle.hops_core.specs.Built.{is_built};

use name_space::Call;

/// Whether the call is one that a session carries out. It takes no memory.
pub fn is_built(call: &Call) -> bool
    ensures { result ≡ is_built call.now }
{
    match call {
        Call::Mkdirs(_)
        | Call::Create(..)
        | Call::Stat(_)
        | Call::List(_)
        | Call::Chmod(..)
        | Call::Delete(_, false) => true,
        Call::Append(_)
        | Call::Grow(..)
        | Call::Close(_)
        | Call::Delete(_, true)
        | Call::Rename(..)
        | Call::SetQuota(..)
        | Call::Usage(_) => false,
    }
}
