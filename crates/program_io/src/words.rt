//! The words of the command line.

use hops_base::NoMemory;
use std::alloc::Global;
use std::env::{Env, FillError};

// The most bytes of a word of any command.
const LONGEST_WORD: usize = 64;

/// The words after the program's name. One that is no text or too long for any command is given as one
/// that no command has.
pub fn words_given(rt: &impl Env, alloc: Global) -> Result<Vec<String>, NoMemory> {
    let mut words = Vec::new(alloc);
    let mut buffer = [0u8; LONGEST_WORD];
    for place in 1..usize::MAX {
        match rt.arg(place, &mut buffer) {
            Ok(count) => words.push(String::from_utf8_lossy(alloc, &buffer[..count])?)?,
            Err(FillError::TooLong) => words.push(String::new(alloc))?,
            Err(FillError::NotPresent) => break,
        }
    }
    Ok(words)
}
