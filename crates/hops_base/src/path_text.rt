//! The texts of paths: which are read, and what is wrong with the others.

ghost use Rattle.std.specs.Prelude.{◌≡◌, ◌==◌, true, map, IfOk};
ghost use Rattle.std.specs.String.{string_bytes};
ghost use Rattle.std.specs.List.{list_all, list_any, slice_split};
ghost use Rattle.hops_base.specs.Name.{is_name};
ghost use Rattle.hops_base.specs.Path.{is_absolute, names_in, name_fault, names_fault, joined};

use crate::memory::NoMemory;
use crate::name::{MOST_NAME_BYTES, Name};
use std::alloc::Global;

/// Why a text gave no path. Places count the names from 0. The rules are this project's own.
#[derive(Clone, Copy, Debug, PartialEq, Eq)]
pub enum PathFault {
    /// The text has more than 8,000 bytes; it has so many.
    PathTooLong(u64),
    /// The text does not begin with `/`.
    Relative,
    /// The text has more than 1,000 names, empty and faulty ones counted; it has so many.
    TooDeep(u64),
    /// The name at this place is empty.
    EmptyName(u64),
    /// The name at this place is `.` or `..`.
    Dot(u64),
    /// The name at this place has a NUL.
    Nul(u64),
    /// The name at this place has more than 255 bytes.
    NameTooLong(u64),
    /// Memory ran out before the text was read.
    NoMemory,
}

// The names that stand in the text of an absolute path.
pub fn names_of(alloc: Global, text: &str) -> Result<Vec<&str>, NoMemory>
    requires { is_absolute text.now ≡ true }
    ensures { IfOk result (λ names. map (λ name. name.now) names.items ≡ names_in text.now) }
{
    if text.len() == 1 {
        return Ok(Vec::new(alloc));
    }
    let mut pieces = pieces_of(alloc, text)?;
    let _before_the_first_slash = pieces.remove(0);
    Ok(pieces)
}

fn pieces_of(alloc: Global, text: &str) -> Result<Vec<&str>, NoMemory>
    ensures { IfOk result (λ pieces. map (λ piece. piece.now) pieces.items ≡ slice_split (λ b. b == 47) text.now) }
{
    match text.split('/').collect(alloc) {
        Ok(pieces) => Ok(pieces),
        Err(_) => Err(NoMemory),
    }
}

// Whether the text begins with a slash.
pub fn begins_with_slash(text: &str) -> bool
    ensures { result ≡ is_absolute text.now }
{
    match text.as_bytes() {
        [] => false,
        [first, ..] => *first == b'/',
    }
}

// What is wrong with the first bad name.
pub fn first_fault(names: &[&str]) -> Option<PathFault>
    ensures { result ≡ names_fault 0 (map (λ name. name.now) names.now) }
{
    for (i, name) in names.iter().enumerate() {
        if let Some(fault) = fault_at(i as u64, name) {
            return Some(fault);
        }
    }
    None
}

fn fault_at(i: u64, name: &str) -> Option<PathFault>
    ensures { result ≡ name_fault i name.now }
{
    if name.is_empty() {
        return Some(PathFault::EmptyName(i));
    }
    if name == "." || name == ".." {
        return Some(PathFault::Dot(i));
    }
    if has_nul(name.as_bytes()) {
        return Some(PathFault::Nul(i));
    }
    if name.len() > MOST_NAME_BYTES {
        return Some(PathFault::NameTooLong(i));
    }
    None
}

fn has_nul(bytes: &[u8]) -> bool
    ensures { result ≡ list_any (λ b. b == 0) bytes.now }
{
    bytes.iter().any(|byte| *byte == 0)
}

// The names themselves.
pub fn good_names(alloc: Global, texts: &[&str]) -> Result<Vec<Name>, NoMemory>
    requires { list_all is_name (map (λ name. name.now) texts.now) ≡ true }
    ensures { IfOk result (λ names. names.items ≡ map (λ name. name.now) texts.now) }
{
    let mut names = Vec::with_capacity(alloc, texts.len())?;
    for text in texts {
        match Name::read(alloc, text) {
            Ok(name) => names.push(name)?,
            Err(_) => return Err(NoMemory),
        }
    }
    Ok(names)
}

// The text of the names, each after a slash.
pub fn joined_text(alloc: Global, names: &[Name]) -> Result<String, NoMemory>
    ensures { IfOk result (λ text. string_bytes text ≡ joined names.now) }
{
    let mut text = String::new(alloc);
    for name in names {
        text.push('/')?;
        text.push_str(name.text())?;
    }
    Ok(text)
}

// The same names again.
pub fn copies(alloc: Global, names: &[Name]) -> Result<Vec<Name>, NoMemory>
    ensures { IfOk result (λ copies. copies.items ≡ names.now) }
{
    let mut copies = Vec::with_capacity(alloc, names.len())?;
    for name in names {
        copies.push(name.copy()?)?;
    }
    Ok(copies)
}
