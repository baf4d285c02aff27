//! Paths.

ghost use Rattle.std.specs.Prelude.{◌≡◌, ◌≤◌, ◌∷◌, [], ◌++◌, ◌-◌, true, map, length, slice_get, option_copied, IfOk, refl};
ghost use Rattle.std.specs.String.{string_bytes};
ghost use Rattle.std.specs.List.{list_all};
ghost use Rattle.std.specs.Str.{is_utf8};
ghost use Rattle.std.specs.Cmp.{eq_by_cmp_equiv, partial_equiv_from_equiv, partial_order_from_agreeing_total};
ghost use Rattle.std.specs.Ordering.{as_partial_cmp};
ghost use Rattle.hops_base.specs.Name.{is_name};
ghost use Rattle.hops_base.specs.Path.{path_fault, free_fault, IsPathRead, most_path_names, text_of, parent_of, is_below, is_short, path_cmp, same_path, path_cmp_total, is_piece, IsNamesRead};

use crate::memory::NoMemory;
use crate::name::Name;
use crate::path_text::{
    PathFault, begins_with_slash, copies, first_fault, good_names, joined_text, names_of,
};
use std::alloc::Global;
use std::cmp::Ordering;
use std::marker::Model;

// The most bytes in the text of a path that a call may name.
const MOST_PATH_BYTES: usize = 8_000;

// The most names in a path that a call may name.
const MOST_PATH_NAMES: usize = 1_000;

/// A path, seen as the list of its names; `/` is the empty list. Paths are ordered as lists, and names by
/// their bytes.
#[derive(Debug, Drop)]
pub struct Path {
    names: Vec<Name>,
}

impl Model for Path {
    ghost use Rattle.std.specs.Prelude.{List, ℕ, IsTrue};
    ghost use Rattle.std.specs.List.{list_all};
    ghost use Rattle.hops_base.specs.Name.{is_name};

    ghost Value = { List (List ℕ) };

    ghost view = { λ p. p.names.items };

    ghost invariant = { λ p. IsTrue (list_all is_name p.names.items) };
}

impl Path {
    /// The path `/`.
    pub fn root(alloc: Global) -> Path
        ensures { result ≡ [] }
    {
        Path {
            names: Vec::new(alloc),
        }
    }

    /// Reads the path of a call. The first fault is told: more than 8,000 bytes; no `/` first; more than
    /// 1,000 names; then from the left a name that is empty, `.` or `..`, has a NUL, or is too long.
    pub fn read(alloc: Global, text: &str) -> Result<Path, PathFault>
        ensures read { IsPathRead (path_fault text.now) text.now result }
        ensures short { IfOk result (λ path. is_short path ≡ true) }
    {
        if text.len() > MOST_PATH_BYTES {
            return Err(PathFault::PathTooLong(text.len() as u64));
        }
        if !begins_with_slash(text) {
            return Err(PathFault::Relative);
        }
        let Ok(names) = names_of(alloc, text) else {
            return Err(PathFault::NoMemory);
        };
        if names.len() > MOST_PATH_NAMES {
            return Err(PathFault::TooDeep(names.len() as u64));
        }
        read_names(alloc, &names)
    }

    /// Reads a path of any length and depth, else as [`Path::read`].
    pub fn read_free(alloc: Global, text: &str) -> Result<Path, PathFault>
        ensures { IsPathRead (free_fault text.now) text.now result }
    {
        if !begins_with_slash(text) {
            return Err(PathFault::Relative);
        }
        let Ok(names) = names_of(alloc, text) else {
            return Err(PathFault::NoMemory);
        };
        read_names(alloc, &names)
    }

    /// Its text: each name after a `/`, and `/` for the root.
    pub fn text(&self) -> Result<String, NoMemory>
        ensures { IfOk result (λ text. string_bytes text ≡ text_of self.now) }
    {
        let alloc = *self.names.allocator();
        if self.names.is_empty() {
            return Ok(String::from_str(alloc, "/")?);
        }
        joined_text(alloc, &self.names)
    }

    /// How many names it has.
    pub fn len(&self) -> u64
        ensures { result ≡ length self.now }
    {
        self.names.len() as u64
    }

    /// Its name at place `i`, counted from 0.
    pub fn get(&self, i: u64) -> Option<&Name>
        ensures { option_copied result ≡ slice_get self.now i }
    {
        self.names.get(i as usize)
    }

    /// All its names.
    pub fn names(&self) -> &[Name]
        ensures names { result.now ≡ self.now }
        ensures good { list_all is_name self.now ≡ true }
    {
        &self.names
    }

    /// The path without its last name. None exactly for `/`.
    pub fn parent(&self) -> Result<Option<Path>, NoMemory>
        ensures { IfOk result (λ parent. parent ≡ parent_of self.now) }
    {
        let Some(before) = self.names.len().checked_sub(1) else {
            return Ok(None);
        };
        let names = copies(*self.names.allocator(), &self.names[..before])?;
        Ok(Some(Path { names }))
    }

    /// Its last name. None exactly for `/`.
    pub fn last(&self) -> Option<&Name>
        ensures { option_copied result ≡ slice_get self.now (length self.now - 1) }
    {
        self.names.last()
    }

    /// Whether it lies strictly below the other path.
    pub fn is_below(&self, other: &Path) -> bool
        ensures { result ≡ is_below self.now other.now }
    {
        self.names.starts_with(&other.names) && other.names.len() < self.names.len()
    }

    /// Whether a call may name it: whether [`Path::read`] takes its text. It consists of names anyhow.
    pub fn is_short(&self) -> bool
        ensures short { result ≡ is_short self.now }
        ensures names { list_all is_name self.now ≡ true }
    {
        self.names.len() <= MOST_PATH_NAMES && text_len(&self.names) <= MOST_PATH_BYTES
    }

    /// The same path again.
    pub fn copy(&self) -> Result<Path, NoMemory>
        ensures { IfOk result (λ path. path ≡ self.now) }
    {
        let names = copies(*self.names.allocator(), &self.names)?;
        Ok(Path { names })
    }

    /// The path with this name added last.
    pub fn with(&self, name: &Name) -> Result<Path, NoMemory>
        ensures { IfOk result (λ path. path ≡ self.now ++ name.now ∷ []) }
    {
        let mut names = copies(*self.names.allocator(), &self.names)?;
        let last = name.copy()?;
        let _good = last.text();
        names.push(last)?;
        Ok(Path { names })
    }
}

// The path of these names, unless one is bad.
fn read_names(alloc: Global, names: &[&str]) -> Result<Path, PathFault>
    requires pieces { list_all is_piece (map (λ name. name.now) names.now) ≡ true }
    requires texts { list_all is_utf8 (map (λ name. name.now) names.now) ≡ true }
    ensures { IsNamesRead (map (λ name. name.now) names.now) result }
{
    if let Some(fault) = first_fault(names) {
        return Err(fault);
    }
    match good_names(alloc, names) {
        Ok(names) => Ok(Path { names }),
        Err(_) => Err(PathFault::NoMemory),
    }
}

// How many bytes the text of a path of these names has.
fn text_len(names: &[Name]) -> usize
    requires { length names.now ≤ most_path_names }
    ensures { result ≡ length (text_of names.now) }
{
    if names.is_empty() {
        return 1;
    }
    let mut len = 0;
    for name in names {
        len += 1 + name.text().len();
    }
    len
}

impl PartialEq for Path {
    ghost eq = { same_path };

    ghost laws = { partial_equiv_from_equiv (eq_by_cmp_equiv path_cmp_total) };

    fn eq(&self, other: &Path) -> bool {
        self.cmp(other) == Ordering::Equal
    }
}

impl Eq for Path {
    ghost laws = { eq_by_cmp_equiv path_cmp_total };
}

impl PartialOrd for Path {
    ghost partial_cmp = { as_partial_cmp path_cmp };

    ghost laws = { partial_order_from_agreeing_total path_cmp path_cmp_total (λ a b. refl) (λ a b. refl) };

    fn partial_cmp(&self, other: &Path) -> Option<Ordering> {
        Some(self.cmp(other))
    }
}

impl Ord for Path {
    ghost cmp = { path_cmp };

    ghost total = { path_cmp_total };

    ghost matches_partial_cmp = { λ a b. refl };

    ghost matches_eq = { λ a b. refl };

    fn cmp(&self, other: &Path) -> Ordering {
        self.names.cmp(&other.names)
    }
}
