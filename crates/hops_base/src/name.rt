//! One component of a path.

ghost use Rattle.std.specs.Prelude.{◌≡◌, ◌↔◌, true, false, Some, length, slice_get, option_copied, IfOk, refl};
ghost use Rattle.std.specs.Ordering.{nat_cmp};
ghost use Rattle.std.specs.List.{list_all};
ghost use Rattle.std.specs.Cmp.{partial_equiv_from_equiv};
ghost use Rattle.std.specs.Cmp.Lexicographic.{slice_cmp, texts_po, texts_ties, nat_list_cmp_total, nat_list_eq_equiv};
ghost use Rattle.hops_base.specs.Name.{is_name, is_name_byte};
ghost use Rattle.std.specs.Prelude.{bytes_eq};

use crate::memory::NoMemory;
use std::alloc::Global;
use std::cmp::Ordering;
use std::marker::Model;

// The most bytes of a name.
pub(crate) const MOST_NAME_BYTES: usize = 255;

/// Why a text gave no name.
#[derive(Clone, Copy, Debug, PartialEq, Eq)]
pub enum NameFault {
    /// The text is no name.
    Bad,
    /// The text is a name, and memory ran out.
    NoMemory,
}

/// A name: 1 to 255 bytes of UTF-8 without `/` and NUL, neither `.` nor `..`. It is seen as the list of
/// its bytes, and compares by them. The limits are this project's own; a name may contain `:`.
#[derive(Debug, Drop)]
pub struct Name {
    text: String,
}

impl Model for Name {
    ghost use Rattle.std.specs.Prelude.{List, ℕ, IsTrue};
    ghost use Rattle.std.specs.String.{string_bytes};
    ghost use Rattle.hops_base.specs.Name.{is_name};

    ghost Value = { List ℕ };

    ghost view = { λ n. string_bytes n.text };

    ghost invariant = { λ n. IsTrue (is_name (string_bytes n.text)) };
}

impl Name {
    /// Reads a name.
    pub fn read(alloc: Global, text: &str) -> Result<Name, NameFault>
        ensures ok { IfOk result (λ name. name ≡ text.now) }
        ensures bad { (result ≡ Err NameFault.Bad) ↔ (is_name text.now ≡ false) }
    {
        if !is_good(text) {
            return Err(NameFault::Bad);
        }
        match String::from_str(alloc, text) {
            Ok(text) => Ok(Name { text }),
            Err(_) => Err(NameFault::NoMemory),
        }
    }

    /// Its text.
    pub fn text(&self) -> &str
        ensures text { result.now ≡ self.now }
        ensures name { is_name self.now ≡ true }
    {
        self.text.as_str()
    }

    /// The same name again.
    pub fn copy(&self) -> Result<Name, NoMemory>
        ensures { IfOk result (λ name. name ≡ self.now) }
    {
        match self.text.clone() {
            Ok(text) => Ok(Name { text }),
            Err(_) => Err(NoMemory),
        }
    }

    /// How many bytes it has.
    pub fn len(&self) -> u64
        ensures { result ≡ length self.now }
    {
        self.text.len() as u64
    }

    /// Its byte at place `i`, counted from 0.
    pub fn get(&self, i: u64) -> Option<&u8>
        ensures { option_copied result ≡ slice_get self.now i }
    {
        self.text.as_bytes().get(i as usize)
    }
}

fn is_good(text: &str) -> bool
    ensures { result ≡ is_name text.now }
{
    if text.is_empty() || text.len() > MOST_NAME_BYTES {
        return false;
    }
    if text == "." || text == ".." {
        return false;
    }
    has_good_bytes(text.as_bytes())
}

fn has_good_bytes(bytes: &[u8]) -> bool
    ensures { result ≡ list_all is_name_byte bytes.now }
{
    bytes.iter().all(|byte| *byte != b'/' && *byte != 0)
}

impl PartialEq for Name {
    ghost eq = { bytes_eq };

    ghost laws = { partial_equiv_from_equiv nat_list_eq_equiv };

    fn eq(&self, other: &Name) -> bool {
        self.text == other.text
    }
}

impl Eq for Name {
    ghost laws = { nat_list_eq_equiv };
}

impl PartialOrd for Name {
    ghost partial_cmp = { λ a b. Some (slice_cmp nat_cmp a b) };

    ghost laws = { texts_po };

    fn partial_cmp(&self, other: &Name) -> Option<Ordering> {
        Some(self.cmp(other))
    }
}

impl Ord for Name {
    ghost cmp = { λ a b. slice_cmp nat_cmp a b };

    ghost total = { nat_list_cmp_total };

    ghost matches_partial_cmp = { λ x y. refl };

    ghost matches_eq = { λ a b. texts_ties a b };

    fn cmp(&self, other: &Name) -> Ordering {
        self.text.cmp(&other.text)
    }
}
