//! The numbers that name things, and the modes of locks.

ghost use Rattle.std.specs.Prelude.{◌≡◌};
ghost use Rattle.hops_base.specs.Mode.{conflict};

/// An inode. The root has 1, new ones take the numbers from 2 on, and 0 stands only as the parent in
/// the root's key.
#[derive(Clone, Copy, Debug, PartialEq, Eq, PartialOrd, Ord)]
pub struct InodeId(pub u64);

/// A session, which is one client's call at one namenode. Sessions are numbered from 1 in the order in
/// which they are opened; 0 is the closing sweep.
#[derive(Clone, Copy, Debug, PartialEq, Eq, PartialOrd, Ord)]
pub struct SessionId(pub u64);

/// A subtree operation. Operations are numbered from 1 in the order of their flags.
#[derive(Clone, Copy, Debug, PartialEq, Eq, PartialOrd, Ord)]
pub struct OpId(pub u64);

/// A client, numbered from 0.
#[derive(Clone, Copy, Debug, PartialEq, Eq, PartialOrd, Ord)]
pub struct ClientNo(pub u32);

/// A namenode, numbered from 0.
#[derive(Clone, Copy, Debug, PartialEq, Eq, PartialOrd, Ord)]
pub struct NodeNo(pub u32);

/// How a key is locked. Two shared locks go together; any other pair conflicts.
#[derive(Clone, Copy, Debug, PartialEq, Eq)]
pub enum Mode {
    Shared,
    Exclusive,
}

impl Mode {
    /// That two locks on one key in these modes keep each other away. It takes no memory.
    pub fn conflicts(self, other: Mode) -> bool
        ensures { result ≡ conflict self other }
    {
        self == Mode::Exclusive || other == Mode::Exclusive
    }
}
