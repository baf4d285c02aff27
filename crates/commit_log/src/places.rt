//! Which of two notes stands after the other.

ghost use Rattle.std.specs.Prelude.{◌≡◌};
ghost use Rattle.commit_log.specs.Places.{is_past};

/// Whether both are there, and the last stands after the first.
pub fn is_past(first: Option<u64>, last: Option<u64>) -> bool
    ensures { result ≡ is_past first last }
{
    match (first, last) {
        (Some(first), Some(last)) => first < last,
        _ => false,
    }
}
