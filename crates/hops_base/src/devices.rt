//! Where bytes come from and go to.

ghost use Rattle.std.specs.Prelude.{◌<◌, ◌≤◌, length};
ghost use Rattle.hops_base.specs.Devices.{Hands, Keeps};

/// What a source answers.
#[derive(Clone, Copy, Debug, PartialEq, Eq)]
pub enum Taken {
    /// So many bytes were appended, at least one.
    Got(usize),
    /// Nothing is left.
    End,
    /// The source failed; its count of faults rose.
    Failed,
    /// Memory ran out.
    NoMemory,
}

/// What a sink answers.
#[derive(Clone, Copy, Debug, PartialEq, Eq)]
pub enum Given {
    /// So many of the bytes were taken, from the first on, at least one.
    Took(usize),
    /// The sink failed; its count of faults rose.
    Failed,
    /// Memory ran out.
    NoMemory,
}

/// Bytes come from it in pieces of any size. Its meaning is what it has left, where it tells that, and a
/// count of faults that never falls.
pub trait Source {
    ghost use Rattle.hops_base.specs.Devices.{Stock};

    ghost stock: { Self → Stock };

    /// Appends at most `max` bytes. Only `Got` appends, and takes what it appends from what is left.
    fn take(&mut self, into: &mut Vec<u8>, max: usize) -> Taken
        requires { 1 ≤ max }
        ensures faults { (stock self.old).faults ≤ (stock self.new).faults }
        ensures answer { Hands max result (stock self.old) (stock self.new) into.old.items into.new.items };
}

/// Bytes go to it in pieces of any size. Its meaning is what it holds, where it tells that, and a count
/// of faults that never falls.
pub trait Sink {
    ghost use Rattle.hops_base.specs.Devices.{Store};

    ghost store: { Self → Store };

    /// Takes some of the bytes, from the first on, and adds them at the end of what it holds.
    fn give(&mut self, bytes: &[u8]) -> Given
        requires { 1 ≤ length bytes.now }
        ensures faults { (store self.old).faults ≤ (store self.new).faults }
        ensures answer { Keeps bytes.now result (store self.old) (store self.new) };
}
