//! Who calls.

ghost use Rattle.std.specs.Prelude.{◌≡◌, ◌↔◌, true, false, IfOk};
ghost use Rattle.std.specs.List.{list_all};
ghost use Rattle.std.specs.Cmp.{partial_equiv_from_equiv};
ghost use Rattle.std.specs.Cmp.Lexicographic.{nat_list_eq_equiv};
ghost use Rattle.std.specs.Prelude.{bytes_eq};
ghost use Rattle.hops_base.specs.User.{is_user, is_user_byte};

use crate::memory::NoMemory;
use std::alloc::Global;
use std::marker::Model;

// The most bytes of a user.
const MOST_USER_BYTES: usize = 32;

/// Why a text gave no user.
#[derive(Clone, Copy, Debug, PartialEq, Eq)]
pub enum UserFault {
    /// The text is no user.
    Bad,
    /// The text is a user, and memory ran out.
    NoMemory,
}

/// A user: 1 to 32 bytes, each a lower-case letter, a digit, `_` or `-`. It is seen as the list of its
/// bytes. The rule is this project's own.
#[derive(Debug, Drop)]
pub struct User {
    text: String,
}

impl Model for User {
    ghost use Rattle.std.specs.Prelude.{List, ℕ, IsTrue};
    ghost use Rattle.std.specs.String.{string_bytes};
    ghost use Rattle.hops_base.specs.User.{is_user};

    ghost Value = { List ℕ };

    ghost view = { λ u. string_bytes u.text };

    ghost invariant = { λ u. IsTrue (is_user (string_bytes u.text)) };
}

impl User {
    /// Reads a user.
    pub fn read(alloc: Global, text: &str) -> Result<User, UserFault>
        ensures ok { IfOk result (λ user. user ≡ text.now) }
        ensures bad { (result ≡ Err UserFault.Bad) ↔ (is_user text.now ≡ false) }
    {
        if !is_good(text) {
            return Err(UserFault::Bad);
        }
        match String::from_str(alloc, text) {
            Ok(text) => Ok(User { text }),
            Err(_) => Err(UserFault::NoMemory),
        }
    }

    /// Its text.
    pub fn text(&self) -> &str
        ensures text { result.now ≡ self.now }
        ensures user { is_user self.now ≡ true }
    {
        self.text.as_str()
    }

    /// The same user again.
    pub fn copy(&self) -> Result<User, NoMemory>
        ensures { IfOk result (λ user. user ≡ self.now) }
    {
        match self.text.clone() {
            Ok(text) => Ok(User { text }),
            Err(_) => Err(NoMemory),
        }
    }
}

fn is_good(text: &str) -> bool
    ensures { result ≡ is_user text.now }
{
    !text.is_empty() && text.len() <= MOST_USER_BYTES && has_good_bytes(text.as_bytes())
}

fn has_good_bytes(bytes: &[u8]) -> bool
    ensures { result ≡ list_all is_user_byte bytes.now }
{
    bytes.iter().all(|byte| {
        byte.is_ascii_lowercase() || byte.is_ascii_digit() || *byte == b'_' || *byte == b'-'
    })
}

impl PartialEq for User {
    ghost eq = { bytes_eq };

    ghost laws = { partial_equiv_from_equiv nat_list_eq_equiv };

    fn eq(&self, other: &User) -> bool {
        self.text == other.text
    }
}

impl Eq for User {
    ghost laws = { nat_list_eq_equiv };
}
