//! Which conflicts were there.

ghost use Rattle.std.specs.Prelude.{[], ◌∷◌};
ghost use Rattle.commit_log.specs.Licensed.{Licensed};
ghost use Rattle.commit_log.specs.Samples.{root, d_key, make, look, remove, yes, seen, not_found, opens, shares, takes, gives, batches, reclaims, does, wants_shared, wants, meets_flag, meets_change, meets_loss, stops, evicts, ann_opens, ben_opens, ben_opens_apart, ann_makes, ann_flags, ben_makes};

/// Whoever is kept from a key names another session that holds it in a mode which doesn't go together with its own.
#[tactic(auto, unfolding(crate::specs::Along::Each, crate::specs::Locks::held, hops_base::specs::Key::key_cmp))]
pub fn locks_that_were_met()
    ensures locked { Licensed (ann_opens ∷ ben_opens ∷ takes 1 root ∷ wants_shared 2 root 1 ∷ []) }
    ensures shared { Licensed (ann_opens ∷ ben_opens ∷ shares 1 root ∷ wants 2 root 1 ∷ []) }
    ensures not_held { ¬ Licensed (ann_opens ∷ ben_opens ∷ takes 1 d_key ∷ wants 2 root 1 ∷ []) }
    ensures held_no_more { ¬ Licensed (ann_opens ∷ ben_opens ∷ takes 1 root ∷ gives 1 ∷ wants 2 root 1 ∷ []) }
    ensures both_share { ¬ Licensed (ann_opens ∷ ben_opens ∷ shares 1 root ∷ wants_shared 2 root 1 ∷ []) }
    ensures its_own_lock { ¬ Licensed (ann_opens ∷ takes 1 root ∷ wants 1 root 1 ∷ []) }
    ensures another_holds { ¬ Licensed (ann_opens ∷ ben_opens ∷ opens 3 1 1 0 ∷ takes 1 root ∷ wants 2 root 3 ∷ []) }
{}

/// Whoever finds a flag names an operation of another session that runs, at a namenode that wasn't evicted.
#[tactic(auto, unfolding(crate::specs::Along::Each, crate::specs::Locks::held, hops_base::specs::Key::key_cmp))]
pub fn flags_that_were_met()
    ensures flagged { Licensed (ann_opens ∷ ben_opens_apart ∷ ann_flags ∷ meets_flag 2 1 ∷ []) }
    ensures stopped { Licensed (ann_opens ∷ ben_opens_apart ∷ ann_flags ∷ stops 0 ∷ meets_flag 2 1 ∷ []) }
    ensures evicted { ¬ Licensed (ann_opens ∷ ben_opens_apart ∷ ann_flags ∷ evicts 0 ∷ meets_flag 2 1 ∷ []) }
    ensures evicted_before { Licensed (evicts 0 ∷ ann_opens ∷ ben_opens_apart ∷ ann_flags ∷ meets_flag 2 1 ∷ []) }
    ensures another_evicted { Licensed (ann_opens ∷ ben_opens_apart ∷ ann_flags ∷ evicts 1 ∷ meets_flag 2 1 ∷ []) }
    ensures its_own_flag { ¬ Licensed (ann_opens ∷ ann_flags ∷ meets_flag 1 1 ∷ []) }
    ensures another_operation { ¬ Licensed (ann_opens ∷ ben_opens_apart ∷ ann_flags ∷ meets_flag 2 2 ∷ []) }
    ensures ended { ¬ Licensed (ann_opens ∷ ben_opens_apart ∷ ann_flags ∷ does 1 0 1 remove yes ∷ meets_flag 2 1 ∷ []) }
    ensures reclaimed { ¬ Licensed (ann_opens ∷ ben_opens_apart ∷ ann_flags ∷ reclaims 0 1 ∷ meets_flag 2 1 ∷ []) }
    ensures not_flagged { ¬ Licensed (ann_opens ∷ ben_opens_apart ∷ meets_flag 2 1 ∷ []) }
{}

/// Whoever finds a change names a length of the book, after its own opening, since which another session committed a step
/// or answered a call that may change something, granted or not.
#[tactic(auto, unfolding(crate::specs::Along::Each))]
pub fn changes_that_were_met()
    ensures changed { Licensed (ann_opens ∷ ben_opens ∷ ben_makes ∷ meets_change 1 2 ∷ []) }
    ensures refused { Licensed (ann_opens ∷ ben_opens ∷ does 2 1 1 make not_found ∷ meets_change 1 2 ∷ []) }
    ensures by_a_step { Licensed (ann_opens ∷ ben_opens ∷ batches 2 1 ∷ meets_change 1 1 ∷ []) }
    ensures by_the_sweep { Licensed (ann_opens ∷ reclaims 0 1 ∷ meets_change 1 1 ∷ []) }
    ensures looked_at { ¬ Licensed (ann_opens ∷ ben_opens ∷ does 2 1 1 look seen ∷ meets_change 1 2 ∷ []) }
    ensures its_own_step { ¬ Licensed (ann_opens ∷ ann_flags ∷ meets_change 1 1 ∷ []) }
    ensures its_own_answer { ¬ Licensed (ann_opens ∷ ann_makes ∷ meets_change 1 1 ∷ []) }
{}

/// The length is one that the book has had since.
#[tactic(auto, unfolding(crate::specs::Along::Each))]
pub fn changes_are_found_since_the_opening()
    ensures changed_before { ¬ Licensed (ann_opens ∷ ben_opens ∷ ben_makes ∷ meets_change 1 3 ∷ []) }
    ensures from_its_opening { ¬ Licensed (ann_opens ∷ ben_opens ∷ ben_makes ∷ meets_change 1 0 ∷ []) }
    ensures from_later { ¬ Licensed (ann_opens ∷ ben_opens ∷ ben_makes ∷ meets_change 1 4 ∷ []) }
{}

/// Whoever has lost its operation set the flag of it, and another session reclaimed it.
#[tactic(auto, unfolding(crate::specs::Along::Each))]
pub fn losses_that_were_met()
    ensures lost { Licensed (ann_opens ∷ ben_opens_apart ∷ ann_flags ∷ reclaims 2 1 ∷ meets_loss 1 1 ∷ []) }
    ensures lost_to_the_sweep { Licensed (ann_opens ∷ ann_flags ∷ reclaims 0 1 ∷ meets_loss 1 1 ∷ []) }
    ensures not_reclaimed { ¬ Licensed (ann_opens ∷ ann_flags ∷ meets_loss 1 1 ∷ []) }
    ensures its_own_reclaim { ¬ Licensed (ann_opens ∷ ann_flags ∷ reclaims 1 1 ∷ meets_loss 1 1 ∷ []) }
    ensures of_another { ¬ Licensed (ann_opens ∷ ben_opens_apart ∷ ann_flags ∷ reclaims 0 1 ∷ meets_loss 2 1 ∷ []) }
    ensures another_operation { ¬ Licensed (ann_opens ∷ ann_flags ∷ reclaims 0 2 ∷ meets_loss 1 2 ∷ []) }
    ensures another_reclaimed { ¬ Licensed (ann_opens ∷ ann_flags ∷ reclaims 0 2 ∷ meets_loss 1 1 ∷ []) }
{}
