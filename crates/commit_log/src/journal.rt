//! Which notes tell the history.

ghost use Rattle.std.specs.Prelude.{◌≡◌, IfOk};
ghost use Rattle.commit_log.specs.Reads.{tells_history, journal};

use crate::note::Note;
use hops_base::NoMemory;
use std::alloc::Global;

/// The numbers of the Did and Cut notes, rising.
pub fn history_of(alloc: Global, notes: &[Note]) -> Result<Vec<u64>, NoMemory>
    ensures { IfOk result (λ numbers. numbers.items ≡ journal notes.now) }
{
    let mut numbers: Vec<u64> = Vec::new(alloc);
    for (i, note) in notes.iter().enumerate() {
        if tells_history(note) {
            numbers.push(i as u64)?;
        }
    }
    Ok(numbers)
}

// Whether it is a Did or a Cut.
fn tells_history(note: &Note) -> bool
    ensures { result ≡ tells_history note.now }
{
    matches!(note, Note::Did(..) | Note::Cut(..))
}
