//! Which histories are legal.

ghost use Rattle.std.specs.Prelude.{false, [], ◌∷◌};
ghost use Rattle.commit_log.specs.Legal.{Legal};
ghost use Rattle.commit_log.specs.Samples.{d, d_e, d_f, d_e_f, make, look, yes, seen, not_found, list_root, none_listed, ann, ben, does, cuts, e_is_cut, ann_makes, ann_alone, ann_looks};
ghost use Rattle.name_space.specs.declared.call.Call.TheVariants.{Mkdirs};
ghost use Rattle.name_space.specs.declared.reply.Reply.TheVariants.{Truth};

/// Each answer in a book is that of its call on a plain namespace, for the user of its client.
#[tactic(auto, unfolding(crate::specs::Along::Each, crate::specs::Legal::space))]
pub fn answers_are_those_of_plain_calls()
    ensures made_and_seen { Legal ann_alone (ann_makes ∷ ann_looks ∷ []) }
    ensures wrong_truth { ¬ Legal ann_alone (does 1 0 1 make (Truth false) ∷ []) }
    ensures seen_too_early { ¬ Legal ann_alone (does 1 0 2 look seen ∷ does 2 0 1 make yes ∷ []) }
    ensures another_owner { ¬ Legal (ben ∷ []) (ann_makes ∷ ann_looks ∷ []) }
    ensures with_room { Legal ann_alone (does 1 0 1 list_root (none_listed 7) ∷ []) }
    ensures another_client { ¬ Legal (ann ∷ ben ∷ []) (does 1 1 1 make yes ∷ does 2 1 2 look seen ∷ []) }
{}

/// A cut takes away what may go.
#[tactic(auto, unfolding(crate::specs::Along::Each, crate::specs::Legal::space))]
pub fn cuts_take_what_may_go()
    ensures cut { Legal ann_alone (ann_makes ∷ e_is_cut ∷ does 2 0 2 look not_found ∷ []) }
    ensures still_seen { ¬ Legal ann_alone (ann_makes ∷ e_is_cut ∷ ann_looks ∷ []) }
    ensures cut_not_closed { ¬ Legal ann_alone (does 1 0 1 (Mkdirs d_e_f) yes ∷ e_is_cut ∷ []) }
    ensures cut_of_nothing { ¬ Legal ann_alone (ann_makes ∷ cuts 1 d [] ∷ []) }
    ensures cut_of_the_top { ¬ Legal ann_alone (ann_makes ∷ cuts 1 d (d ∷ d_e ∷ []) ∷ []) }
    ensures cut_at_the_root { ¬ Legal ann_alone (ann_makes ∷ cuts 1 [] (d ∷ d_e ∷ []) ∷ []) }
    ensures cut_twice_in_one { ¬ Legal ann_alone (ann_makes ∷ cuts 1 d (d_e ∷ d_e ∷ []) ∷ []) }
    ensures cut_of_what_is_missing { ¬ Legal ann_alone (does 1 0 1 (Mkdirs d) yes ∷ e_is_cut ∷ []) }
    ensures cut_that_falls { ¬ Legal ann_alone (ann_makes ∷ does 2 0 2 (Mkdirs d_f) yes ∷ cuts 1 d (d_f ∷ d_e ∷ []) ∷ []) }
{}
