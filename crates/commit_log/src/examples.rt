//! Worked examples of the words by which books are judged: what each lets pass, and what it refuses.

pub mod answering;
pub mod conflicts;
pub mod histories;
pub mod locking;
pub mod namenodes;
pub mod numbering;
pub mod order;
pub mod removing;
pub mod whole_runs;
