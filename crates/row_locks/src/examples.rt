//! Worked examples of the words by which locks and plans are judged: what each lets pass, and what it refuses.

ghost use Rattle.std.specs.Prelude.{[], ◌∷◌};
ghost use Rattle.hops_base.specs.declared.ids.Mode.TheVariants.{Shared, Exclusive};
ghost use Rattle.row_locks.specs.Locks.{AreApart, IsAsked, IsConflict, IsGivenBack};
ghost use Rattle.row_locks.specs.Plans.{IsPlan};
ghost use Rattle.row_locks.specs.Samples.{session, low, high, table_of, one_shares, two_share, one_alone, two_keys};
ghost use Rattle.row_locks.specs.declared.ask.Ask.TheVariants.{Held, Busy, NoMemory};

/// Whoever wants a key alone is told the least session that shares it, and whoever wants to share it the
/// one that has it alone.
pub fn the_least_session_is_told()
    ensures least { IsConflict (table_of two_share) (session 3) low Exclusive (Some (session 1)) }
    ensures greatest { ¬ IsConflict (table_of two_share) (session 3) low Exclusive (Some (session 2)) }
    ensures nobody { ¬ IsConflict (table_of two_share) (session 3) low Exclusive None }
    ensures a_stranger { ¬ IsConflict (table_of two_share) (session 3) low Exclusive (Some (session 4)) }
    ensures alone { IsConflict (table_of one_alone) (session 3) low Shared (Some (session 1)) }
{}

/// Sessions that share a key don't keep each other away.
pub fn shared_locks_go_together()
    ensures together { IsConflict (table_of two_share) (session 3) low Shared None }
    ensures kept_away { ¬ IsConflict (table_of two_share) (session 3) low Shared (Some (session 1)) }
{}

/// A session's own lock isn't in its way, nor is a lock on another key.
pub fn only_others_on_the_key_are_in_the_way()
    ensures own { IsConflict (table_of one_alone) (session 1) low Exclusive None }
    ensures own_told { ¬ IsConflict (table_of one_alone) (session 1) low Exclusive (Some (session 1)) }
    ensures own_beside { IsConflict (table_of two_share) (session 1) low Exclusive (Some (session 2)) }
    ensures another_key { IsConflict (table_of one_alone) (session 2) high Exclusive None }
    ensures another_key_told { ¬ IsConflict (table_of one_alone) (session 2) high Exclusive (Some (session 1)) }
{}

/// Who holds the lock holds it in the mode that was asked for, and everything else is as before.
pub fn a_free_key_is_held()
    ensures held { IsAsked (table_of one_shares) (session 2) low Shared Held (table_of two_share) }
    ensures not_added { ¬ IsAsked (table_of one_shares) (session 2) low Shared Held (table_of one_shares) }
    ensures in_another_mode { ¬ IsAsked (table_of []) (session 1) low Shared Held (table_of one_alone) }
    ensures others_are_lost { ¬ IsAsked (table_of one_shares) (session 2) low Shared Held (table_of ((2, low, Shared) ∷ [])) }
    ensures of_another_key { ¬ IsAsked (table_of []) (session 1) high Shared Held (table_of one_shares) }
    ensures in_the_way { ¬ IsAsked (table_of one_shares) (session 2) low Exclusive Held (table_of ((2, low, Exclusive) ∷ one_shares)) }
{}

/// A conflict changes nothing, and want of memory never hides it.
pub fn a_refusal_changes_nothing()
    ensures busy { IsAsked (table_of one_alone) (session 2) low Shared (Busy (session 1)) (table_of one_alone) }
    ensures busy_and_added { ¬ IsAsked (table_of one_alone) (session 2) low Shared (Busy (session 1)) (table_of ((2, low, Shared) ∷ one_alone)) }
    ensures busy_and_taken { ¬ IsAsked (table_of one_alone) (session 2) low Shared (Busy (session 1)) (table_of []) }
    ensures no_memory { IsAsked (table_of one_shares) (session 2) low Shared NoMemory (table_of one_shares) }
    ensures no_memory_and_added { ¬ IsAsked (table_of one_shares) (session 2) low Shared NoMemory (table_of two_share) }
    ensures hidden { ¬ IsAsked (table_of one_alone) (session 2) low Shared NoMemory (table_of one_alone) }
{}

/// All locks of one session are given back, and no other.
pub fn locks_of_one_session_are_given_back()
    ensures all { IsGivenBack (session 1) (table_of two_keys) (table_of ((2, low, Shared) ∷ [])) }
    ensures none { IsGivenBack (session 3) (table_of two_keys) (table_of two_keys) }
    ensures one_is_left { ¬ IsGivenBack (session 1) (table_of two_keys) (table_of two_share) }
    ensures another_is_lost { ¬ IsGivenBack (session 1) (table_of two_keys) (table_of []) }
    ensures of_another { ¬ IsGivenBack (session 2) (table_of two_keys) (table_of ((2, low, Shared) ∷ [])) }
{}

/// Sessions that share a key are apart, and a session that has it alone is not apart from one that shares it.
pub fn locks_that_clash_are_not_apart()
    ensures apart { AreApart (table_of two_share) }
    ensures alone { AreApart (table_of one_alone) }
    ensures clash { ¬ AreApart (table_of ((2, low, Exclusive) ∷ one_shares)) }
{}

/// A plan has the wanted keys and no other, each once, rising.
pub fn a_plan_rises()
    ensures empty { IsPlan [] [] }
    ensures rising { IsPlan ((high, Shared) ∷ (low, Shared) ∷ []) ((low, Shared) ∷ (high, Shared) ∷ []) }
    ensures in_source_order { ¬ IsPlan ((high, Shared) ∷ (low, Shared) ∷ []) ((high, Shared) ∷ (low, Shared) ∷ []) }
    ensures joined { IsPlan ((low, Shared) ∷ (low, Shared) ∷ []) ((low, Shared) ∷ []) }
    ensures twice { ¬ IsPlan ((low, Shared) ∷ (low, Shared) ∷ []) ((low, Shared) ∷ (low, Shared) ∷ []) }
    ensures forgotten { ¬ IsPlan ((low, Shared) ∷ (high, Shared) ∷ []) ((low, Shared) ∷ []) }
    ensures not_wanted { ¬ IsPlan ((low, Shared) ∷ []) ((low, Shared) ∷ (high, Shared) ∷ []) }
{}

/// A key that is wanted in both modes is planned in the stronger one, and any other in its own.
pub fn exclusive_wins()
    ensures first { IsPlan ((low, Exclusive) ∷ (low, Shared) ∷ []) ((low, Exclusive) ∷ []) }
    ensures last { IsPlan ((low, Shared) ∷ (low, Exclusive) ∷ []) ((low, Exclusive) ∷ []) }
    ensures shared_wins { ¬ IsPlan ((low, Shared) ∷ (low, Exclusive) ∷ []) ((low, Shared) ∷ []) }
    ensures raised { ¬ IsPlan ((low, Shared) ∷ []) ((low, Exclusive) ∷ []) }
    ensures of_another_key { IsPlan ((high, Exclusive) ∷ (low, Shared) ∷ []) ((low, Shared) ∷ (high, Exclusive) ∷ []) }
    ensures for_another_key { ¬ IsPlan ((high, Exclusive) ∷ (low, Shared) ∷ []) ((low, Exclusive) ∷ (high, Exclusive) ∷ []) }
{}
