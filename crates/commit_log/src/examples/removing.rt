//! Which deletes are explained where they were cut off, and what an operation alone may do.

ghost use Rattle.std.specs.Prelude.{true, false, [], ◌∷◌};
ghost use Rattle.commit_log.specs.Along.{Each};
ghost use Rattle.commit_log.specs.Kept.{CutsInTime, CutOnceAt, ReclaimsLostAt, SubtreesFlagged};
ghost use Rattle.commit_log.specs.Samples.{d, d_e, x, make, remove, move_away, yes, run, run_at, opens, sets_flag, reclaims, does, cuts, stops, evicts, ann_opens, ben_opens_apart, ann_makes, ann_flags, e_is_cut, one_delete, make_and_delete, ann_alone, ben_makes};
ghost use Rattle.commit_log.specs.Told.{CutsExplained};
ghost use Rattle.name_space.specs.declared.call.Call.TheVariants.{Delete};
ghost use Rattle.name_space.specs.declared.call.OpKind.TheVariants as kind;

/// A cut has before it the flag of its delete, whose namenode is gone since.
#[tactic(auto, unfolding(crate::specs::Along::Each))]
pub fn cuts_are_explained()
    ensures stopped { CutsExplained (ann_opens ∷ ann_flags ∷ stops 0 ∷ e_is_cut ∷ []) }
    ensures evicted { CutsExplained (ann_opens ∷ ann_flags ∷ evicts 0 ∷ e_is_cut ∷ []) }
    ensures runs { ¬ CutsExplained (ann_opens ∷ ann_flags ∷ e_is_cut ∷ []) }
    ensures gone_before { ¬ CutsExplained (evicts 0 ∷ ann_opens ∷ ann_flags ∷ e_is_cut ∷ []) }
    ensures gone_before_the_flag { ¬ CutsExplained (ann_opens ∷ stops 0 ∷ ann_flags ∷ e_is_cut ∷ []) }
    ensures another_is_gone { ¬ CutsExplained (ann_opens ∷ ann_flags ∷ stops 1 ∷ e_is_cut ∷ []) }
    ensures another_path { ¬ CutsExplained (ann_opens ∷ ann_flags ∷ stops 0 ∷ cuts 1 x (d_e ∷ []) ∷ []) }
    ensures no_delete { ¬ CutsExplained (ann_opens ∷ sets_flag 1 1 kind.Rename d ∷ stops 0 ∷ e_is_cut ∷ []) }
    ensures no_delete_but_quotas { ¬ CutsExplained (ann_opens ∷ sets_flag 1 1 kind.Quota d ∷ stops 0 ∷ e_is_cut ∷ []) }
    ensures not_flagged { ¬ CutsExplained (ann_opens ∷ stops 0 ∷ e_is_cut ∷ []) }
{}

/// A cut is of a recursive delete at its path.
#[tactic(auto, unfolding(crate::specs::Along::Each))]
pub fn cuts_are_of_deletes()
    ensures cut_off { CutsInTime one_delete (ann_opens ∷ ann_flags ∷ stops 0 ∷ e_is_cut ∷ []) }
    ensures not_recursive { ¬ CutsInTime (run 1 (Delete d false ∷ [])) (ann_opens ∷ ann_flags ∷ stops 0 ∷ e_is_cut ∷ []) }
    ensures elsewhere { ¬ CutsInTime (run 1 (Delete x true ∷ [])) (ann_opens ∷ ann_flags ∷ stops 0 ∷ e_is_cut ∷ []) }
    ensures flagged_elsewhere { ¬ CutsInTime one_delete (ann_opens ∷ sets_flag 1 1 kind.Delete x ∷ stops 0 ∷ e_is_cut ∷ []) }
    ensures moved { ¬ CutsInTime (run 1 (move_away ∷ [])) (ann_opens ∷ ann_flags ∷ stops 0 ∷ e_is_cut ∷ []) }
{}

/// A cut stands in its client's time: the earlier answers before the flag, and that of the call itself after the cut.
#[tactic(auto, unfolding(crate::specs::Along::Each))]
pub fn cuts_are_in_time()
    ensures before_an_earlier_answer { ¬ CutsInTime make_and_delete (opens 1 0 2 0 ∷ ann_flags ∷ opens 2 0 1 1 ∷ does 2 0 1 make yes ∷ stops 0 ∷ e_is_cut ∷ []) }
    ensures before_a_later_earlier_answer { ¬ CutsInTime make_and_delete (opens 1 0 2 0 ∷ ann_flags ∷ stops 0 ∷ e_is_cut ∷ opens 2 0 1 1 ∷ does 2 0 1 make yes ∷ []) }
    ensures after_its_answer { ¬ CutsInTime one_delete (ann_opens ∷ ann_flags ∷ does 1 0 1 remove yes ∷ stops 0 ∷ e_is_cut ∷ []) }
    ensures before_its_answer { CutsInTime (run 2 (remove ∷ [])) (ann_opens ∷ ann_flags ∷ stops 0 ∷ e_is_cut ∷ opens 2 0 1 1 ∷ does 2 0 1 remove yes ∷ []) }
    ensures answer_of_another { CutsInTime (run_at 2 [] (make ∷ remove ∷ []) (make ∷ [])) (opens 1 0 2 0 ∷ ann_flags ∷ ben_opens_apart ∷ ben_makes ∷ stops 0 ∷ e_is_cut ∷ []) }
{}

/// An operation is cut once.
#[tactic(auto, unfolding(crate::specs::Along::Each))]
pub fn operations_are_cut_once()
    ensures once { Each CutOnceAt (ann_flags ∷ e_is_cut ∷ []) }
    ensures twice { ¬ Each CutOnceAt (ann_flags ∷ e_is_cut ∷ e_is_cut ∷ []) }
    ensures two { Each CutOnceAt (ann_flags ∷ e_is_cut ∷ cuts 2 x (x ∷ []) ∷ []) }
{}

/// An operation is reclaimed only after its flag, where the namenode of its session was gone since.
#[tactic(auto, unfolding(crate::specs::Along::Each))]
pub fn reclaims_follow_losses()
    ensures evicted { Each ReclaimsLostAt (ann_opens ∷ ann_flags ∷ evicts 0 ∷ reclaims 2 1 ∷ []) }
    ensures stopped { Each ReclaimsLostAt (ann_opens ∷ ann_flags ∷ stops 0 ∷ reclaims 2 1 ∷ []) }
    ensures not_lost { ¬ Each ReclaimsLostAt (ann_opens ∷ ann_flags ∷ reclaims 2 1 ∷ []) }
    ensures another_lost { ¬ Each ReclaimsLostAt (ann_opens ∷ ann_flags ∷ evicts 1 ∷ reclaims 2 1 ∷ []) }
    ensures lost_before { ¬ Each ReclaimsLostAt (ann_opens ∷ evicts 0 ∷ ann_flags ∷ reclaims 2 1 ∷ []) }
    ensures no_flag { ¬ Each ReclaimsLostAt (reclaims 2 1 ∷ []) }
{}

/// A session takes away a subtree only by an operation of its own that runs.
#[tactic(auto, unfolding(crate::specs::Along::Each, crate::specs::Legal::space))]
pub fn subtrees_go_by_operations()
    ensures not_flagged { ¬ SubtreesFlagged (λ call. true) ann_alone (ann_makes ∷ does 2 0 2 remove yes ∷ []) }
    ensures flagged { SubtreesFlagged (λ call. true) ann_alone (ann_makes ∷ sets_flag 2 1 kind.Delete d ∷ does 2 0 2 remove yes ∷ []) }
    ensures flagged_by_another { ¬ SubtreesFlagged (λ call. true) ann_alone (ann_makes ∷ sets_flag 3 1 kind.Delete d ∷ does 2 0 2 remove yes ∷ []) }
    ensures reclaimed { ¬ SubtreesFlagged (λ call. true) ann_alone (ann_makes ∷ sets_flag 2 1 kind.Delete d ∷ reclaims 0 1 ∷ does 2 0 2 remove yes ∷ []) }
    ensures moved_whole { ¬ SubtreesFlagged (λ call. true) ann_alone (ann_makes ∷ does 2 0 2 move_away yes ∷ []) }
    ensures one_alone { SubtreesFlagged (λ call. true) ann_alone (ann_makes ∷ does 2 0 2 (Delete d_e true) yes ∷ []) }
    ensures another_call { SubtreesFlagged (λ call. false) ann_alone (ann_makes ∷ does 2 0 2 remove yes ∷ []) }
{}
