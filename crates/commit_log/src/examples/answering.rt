//! Which answers a book bears out, and which a run may give.

ghost use Rattle.std.specs.Prelude.{false, [], ◌∷◌};
ghost use Rattle.commit_log.specs.Answers.{Answers};
ghost use Rattle.commit_log.specs.Kept.{EndsKept};
ghost use Rattle.commit_log.specs.Samples.{make, look, yes, seen, list_root, none_listed, run, run_at, run_giving_up, run_persisting, opens, does, meets_change, stops, evicts, ann_opens, ben_opens, ann_makes, done, gave_up, left_alone, two_calls, one_call, two_clients, ann_looks};
ghost use Rattle.name_space.specs.declared.reply.Reply.TheVariants.{Truth};

/// A call that was done has its own note with its reply.
#[tactic(auto, unfolding(crate::specs::Along::Each))]
pub fn done_calls_have_their_notes()
    ensures done { Answers one_call (ann_opens ∷ ann_makes ∷ []) (done 0 1 1 yes ∷ []) }
    ensures with_other_room { Answers (run 1 (list_root ∷ [])) (does 1 0 1 list_root (none_listed 7) ∷ []) (done 0 1 0 (none_listed 9) ∷ []) }
    ensures at_its_opening { ¬ Answers one_call (ann_opens ∷ ann_makes ∷ []) (done 0 1 0 yes ∷ []) }
    ensures past_the_end { ¬ Answers one_call (ann_opens ∷ ann_makes ∷ []) (done 0 1 2 yes ∷ []) }
    ensures another_reply { ¬ Answers one_call (ann_opens ∷ ann_makes ∷ []) (done 0 1 1 (Truth false) ∷ []) }
    ensures another_call { ¬ Answers two_calls (ann_opens ∷ ann_makes ∷ []) (done 0 1 1 yes ∷ done 0 2 1 yes ∷ []) }
    ensures another_client { ¬ Answers two_clients (ann_makes ∷ []) (done 0 1 0 yes ∷ done 1 1 0 yes ∷ []) }
{}

/// Each call of the script has one answer, in order, and each Did is of a call that was answered so.
#[tactic(auto, unfolding(crate::specs::Along::Each))]
pub fn each_call_has_one_answer()
    ensures unanswered { ¬ Answers one_call [] [] }
    ensures answered_twice { ¬ Answers one_call (ann_opens ∷ ann_makes ∷ []) (done 0 1 1 yes ∷ done 0 1 1 yes ∷ []) }
    ensures not_in_the_script { ¬ Answers one_call (ann_makes ∷ ann_looks ∷ []) (done 0 1 0 yes ∷ []) }
    ensures done_twice { ¬ Answers one_call (ann_makes ∷ does 2 0 1 make yes ∷ []) (done 0 1 0 yes ∷ []) }
{}

/// The notes of one client's calls rise; those of two clients needn't.
#[tactic(auto, unfolding(crate::specs::Along::Each))]
pub fn notes_of_a_client_rise()
    ensures order_turned { ¬ Answers two_calls (does 1 0 2 look seen ∷ does 2 0 1 make yes ∷ []) (done 0 1 1 yes ∷ done 0 2 0 seen ∷ []) }
    ensures of_two_clients { Answers two_clients (does 1 1 1 make yes ∷ does 2 0 1 make yes ∷ []) (done 0 1 1 yes ∷ done 1 1 0 yes ∷ []) }
{}

/// A call that gave up met a conflict, and has no note.
#[tactic(auto, unfolding(crate::specs::Along::Each))]
pub fn calls_that_gave_up_met_a_conflict()
    ensures again { Answers (run_giving_up 1 (make ∷ [])) (ann_opens ∷ meets_change 1 1 ∷ []) (gave_up 0 1 1 ∷ []) }
    ensures and_done { ¬ Answers (run_giving_up 1 (make ∷ [])) (ann_opens ∷ meets_change 1 1 ∷ ann_makes ∷ []) (gave_up 0 1 1 ∷ []) }
    ensures at_an_opening { ¬ Answers (run_giving_up 1 (make ∷ [])) (ann_opens ∷ meets_change 1 1 ∷ []) (gave_up 0 1 0 ∷ []) }
    ensures by_another { ¬ Answers (run_at 2 [] (make ∷ []) (make ∷ [])) (ann_opens ∷ ben_opens ∷ meets_change 2 2 ∷ []) (gave_up 0 1 2 ∷ gave_up 1 1 2 ∷ []) }
    ensures at_another_call { ¬ Answers (run_giving_up 1 (make ∷ look ∷ [])) (ann_opens ∷ meets_change 1 1 ∷ opens 2 0 2 0 ∷ []) (gave_up 0 1 1 ∷ gave_up 0 2 1 ∷ []) }
{}

/// A call for which no namenode was left names one that has stopped, and all have.
#[tactic(auto, unfolding(crate::specs::Along::Each))]
pub fn calls_left_alone_had_no_namenode()
    ensures left { Answers one_call (ann_opens ∷ stops 0 ∷ []) (left_alone 0 1 1 ∷ []) }
    ensures after_its_did { Answers one_call (ann_opens ∷ ann_makes ∷ stops 0 ∷ []) (left_alone 0 1 2 ∷ []) }
    ensures beside_another { Answers (run_at 1 [] (make ∷ look ∷ []) (make ∷ [])) (ann_makes ∷ ann_looks ∷ stops 0 ∷ []) (done 0 1 0 yes ∷ left_alone 0 2 2 ∷ left_alone 1 1 2 ∷ []) }
    ensures by_an_eviction { ¬ Answers one_call (ann_opens ∷ stops 0 ∷ evicts 0 ∷ []) (left_alone 0 1 2 ∷ []) }
    ensures by_one_of_two { ¬ Answers (run 2 (make ∷ [])) (ann_opens ∷ stops 0 ∷ []) (left_alone 0 1 1 ∷ []) }
    ensures before_its_did { ¬ Answers two_calls (stops 0 ∷ does 1 0 2 look seen ∷ []) (left_alone 0 1 0 ∷ left_alone 0 2 0 ∷ []) }
{}

/// A call gives up where its script lets it, and whoever was left alone stays alone.
pub fn ends_are_kept()
    ensures gave_up { EndsKept (run_giving_up 1 (make ∷ [])) (ann_opens ∷ meets_change 1 1 ∷ []) (gave_up 0 1 1 ∷ []) }
    ensures persists { ¬ EndsKept (run_persisting 1 (make ∷ [])) (ann_opens ∷ meets_change 1 1 ∷ []) (gave_up 0 1 1 ∷ []) }
    ensures too_early { ¬ EndsKept (run_giving_up 2 (make ∷ [])) (ann_opens ∷ meets_change 1 1 ∷ meets_change 1 2 ∷ []) (gave_up 0 1 1 ∷ []) }
    ensures of_another { ¬ EndsKept (run_giving_up 2 (make ∷ [])) (ann_opens ∷ ben_opens ∷ meets_change 2 2 ∷ meets_change 1 2 ∷ []) (gave_up 0 1 3 ∷ []) }
    ensures left_and_left { EndsKept two_calls (stops 0 ∷ []) (left_alone 0 1 0 ∷ left_alone 0 2 0 ∷ []) }
    ensures left_and_done { ¬ EndsKept two_calls (stops 0 ∷ does 1 0 2 look seen ∷ []) (left_alone 0 1 0 ∷ done 0 2 1 seen ∷ []) }
    ensures left_beside_done { EndsKept (run_at 1 [] (make ∷ []) (make ∷ look ∷ [])) (stops 0 ∷ does 1 1 2 look seen ∷ []) (left_alone 0 1 0 ∷ done 1 2 1 seen ∷ []) }
{}
