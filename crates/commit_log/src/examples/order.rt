//! Which books are in order.

ghost use Rattle.std.specs.Prelude.{[], ◌∷◌};
ghost use Rattle.hops_base.specs.Ids.{node};
ghost use Rattle.commit_log.specs.Along.{Each};
ghost use Rattle.commit_log.specs.Kept.{InOrderAt};
ghost use Rattle.commit_log.specs.Orderly.{Orderly, OrderlyBy};
ghost use Rattle.commit_log.specs.Samples.{root, d, make, look, move_away, yes, seen, any_valid_calls, opens, takes, sets_flag, batches, reclaims, does, meets_change, meets_loss, ann_opens, ben_opens, ann_makes, ann_flags, two_calls, two_clients, ann_looks};
ghost use Rattle.name_space.specs.declared.call.OpKind.TheVariants as kind;

/// Sessions are numbered from 1 on, each once, and so are operations.
#[tactic(auto, unfolding(crate::specs::Along::Each))]
pub fn numbers_go_up_from_one()
    ensures skipped { ¬ Orderly two_calls (opens 2 0 1 0 ∷ []) }
    ensures opened_twice { ¬ Orderly two_calls (ann_opens ∷ opens 1 0 2 0 ∷ []) }
    ensures flag_skipped { ¬ Orderly two_calls (ann_opens ∷ sets_flag 1 2 kind.Delete d ∷ []) }
    ensures flagged_twice { ¬ Orderly two_calls (ann_opens ∷ ann_flags ∷ ann_flags ∷ []) }
    ensures both { Orderly two_clients (ann_opens ∷ ann_flags ∷ ben_opens ∷ sets_flag 2 2 kind.Delete d ∷ []) }
{}

/// A session is opened for a call and at a namenode of its script.
#[tactic(auto, unfolding(crate::specs::Along::Each))]
pub fn sessions_are_of_the_script()
    ensures there { Orderly two_calls (opens 1 0 2 0 ∷ []) }
    ensures no_such_call { ¬ Orderly two_calls (opens 1 0 3 0 ∷ []) }
    ensures no_call_zero { ¬ Orderly two_calls (opens 1 0 0 0 ∷ []) }
    ensures no_such_client { ¬ Orderly two_calls (opens 1 1 1 0 ∷ []) }
    ensures no_such_namenode { ¬ Orderly two_calls (opens 1 0 1 1 ∷ []) }
{}

/// A session acts after it was opened; the closing sweep alone reclaims with none.
#[tactic(auto, unfolding(crate::specs::Along::Each))]
pub fn sessions_act_once_opened()
    ensures not_opened { ¬ Orderly two_calls (takes 1 root ∷ ann_opens ∷ []) }
    ensures sweep { Orderly two_calls (reclaims 0 1 ∷ []) }
    ensures sweep_only_reclaims { ¬ Orderly two_calls (batches 0 1 ∷ []) }
    ensures another_sweeps { ¬ Orderly two_calls (reclaims 5 1 ∷ []) }
{}

/// A session acts no more after its answer, nor after it learned that its operation is lost.
#[tactic(auto, unfolding(crate::specs::Along::Each))]
pub fn sessions_end()
    ensures took_after_the_answer { ¬ Orderly two_calls (ann_opens ∷ ann_makes ∷ takes 1 root ∷ []) }
    ensures met_after_its_loss { ¬ Orderly two_calls (ann_opens ∷ meets_loss 1 1 ∷ meets_loss 1 1 ∷ []) }
    ensures goes_on_after_a_conflict { Orderly two_calls (ann_opens ∷ meets_change 1 1 ∷ takes 1 root ∷ []) }
    ensures another_goes_on { Orderly two_clients (ann_opens ∷ ben_opens ∷ ann_makes ∷ takes 2 root ∷ []) }
{}

/// A Did is of the call for which its session was opened, as the script has it, and no call has two.
#[tactic(auto, unfolding(crate::specs::Along::Each))]
pub fn answers_are_of_their_calls()
    ensures answered { Orderly two_calls (ann_opens ∷ ann_makes ∷ opens 2 0 2 0 ∷ ann_looks ∷ []) }
    ensures answered_twice { ¬ Orderly two_calls (ann_opens ∷ ann_makes ∷ opens 2 0 1 0 ∷ does 2 0 1 make yes ∷ []) }
    ensures another_call { ¬ Orderly two_calls (ann_opens ∷ does 1 0 1 look seen ∷ []) }
    ensures another_number { ¬ Orderly two_calls (ann_opens ∷ does 1 0 2 look seen ∷ []) }
    ensures another_client { ¬ Orderly two_clients (ann_opens ∷ does 1 1 1 make yes ∷ []) }
{}

/// Order is told by tests of a call and of a namenode: where clients may make any valid calls of any numbers, a book is in
/// order with calls that no script foretold, but not without a number, without a client or with two answers.
#[tactic(auto, unfolding(crate::specs::Along::Each))]
pub fn terms_need_no_script()
    ensures any_call { OrderlyBy (any_valid_calls 1 1) (opens 1 0 7 0 ∷ does 1 0 7 move_away yes ∷ []) }
    ensures no_call_zero { ¬ OrderlyBy (any_valid_calls 1 1) (opens 1 0 0 0 ∷ []) }
    ensures no_such_client { ¬ OrderlyBy (any_valid_calls 1 1) (opens 1 1 7 0 ∷ []) }
    ensures no_such_namenode { ¬ OrderlyBy (any_valid_calls 1 1) (opens 1 0 7 1 ∷ []) }
    ensures another_number { ¬ OrderlyBy (any_valid_calls 1 1) (opens 1 0 7 0 ∷ does 1 0 8 move_away yes ∷ []) }
    ensures answered_twice { ¬ OrderlyBy (any_valid_calls 1 1) (ann_opens ∷ ann_makes ∷ opens 2 0 1 0 ∷ does 2 0 1 make yes ∷ []) }
{}

/// A client is answered in the order of its calls.
#[tactic(auto, unfolding(crate::specs::Along::Each))]
pub fn answers_come_in_order()
    ensures in_order { Each InOrderAt (ann_makes ∷ ann_looks ∷ []) }
    ensures out_of_order { ¬ Each InOrderAt (ann_looks ∷ ann_makes ∷ []) }
    ensures of_two_clients { Each InOrderAt (ann_looks ∷ does 1 1 1 make yes ∷ []) }
{}
