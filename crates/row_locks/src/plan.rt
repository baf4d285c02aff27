//! The plan by which a session takes its locks.

ghost use Rattle.std.specs.Prelude.{◌≡◌, IfOk, if◌then◌else◌, length, option_map, slice_get};
ghost use Rattle.hops_base.specs.Key.{same_key};
ghost use Rattle.row_locks.specs.Plans.{IsPlan, IsRising, place_seen, stronger};

use hops_base::{Key, Mode, NoMemory};
use std::marker::Model;

/// The keys that a session is to lock, each once and rising, and how it is to lock them. It is seen as a
/// list of keys with their modes. This project's own.
#[derive(Debug, Drop)]
pub struct Plan {
    locks: Vec<(Key, Mode)>,
}

impl Model for Plan {
    ghost use Rattle.std.specs.Prelude.{List};
    ghost use Rattle.hops_base.specs.declared.key.Key.{Key};
    ghost use Rattle.hops_base.specs.declared.ids.Mode.{Mode};
    ghost use Rattle.row_locks.specs.Plans.{IsRising};

    ghost Value = { List (Key × Mode) };

    ghost view = { λ plan. plan.locks.items };

    ghost invariant = { λ plan. IsRising plan.locks.items };
}

impl Plan {
    /// The plan for these keys: each once, in the order of keys, Exclusive where it is wanted so and else
    /// Shared.
    pub fn make(mut wanted: Vec<(Key, Mode)>) -> Result<Plan, NoMemory>
        ensures { IfOk result (λ plan. IsPlan wanted.items plan) }
    {
        wanted.sort_unstable_by(|a, b| a.0.cmp(&b.0));
        wanted.dedup_by(|later, kept| join(kept, later));
        Ok(Plan { locks: wanted })
    }

    /// How many keys it has. It takes no memory.
    pub fn len(&self) -> u64
        ensures length { result ≡ length self.now }
        ensures rising { IsRising self.now }
    {
        self.locks.len() as u64
    }

    /// The key at place `i`, counted from 0, and its mode. None exactly where `i` is the length or more.
    /// It takes no memory.
    pub fn get(&self, i: u64) -> Option<(&Key, Mode)>
        ensures { option_map place_seen result ≡ slice_get self.now i }
    {
        let (key, mode) = self.locks.get(i as usize)?;
        Some((key, *mode))
    }
}

// Joins a later pair to one that was kept, where both are of one key, and tells whether they are.
fn join(kept: &mut (Key, Mode), later: &(Key, Mode)) -> bool
    ensures same { result ≡ same_key later.now.0 kept.old.0 }
    ensures kept { kept.new
        ≡ (kept.old.0, if same_key later.now.0 kept.old.0 then stronger kept.old.1 later.now.1 else kept.old.1) }
{
    let is_same = later.0 == kept.0;
    if is_same && later.1 == Mode::Exclusive {
        kept.1 = Mode::Exclusive;
    }
    is_same
}
