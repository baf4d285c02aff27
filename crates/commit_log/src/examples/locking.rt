//! Which locks are sound, and which are held by whoever answers.

ghost use Rattle.std.specs.Prelude.{◌≡◌, [], ◌∷◌, codes, map, take, filter};
ghost use Rattle.commit_log.specs.Kept.{AnswersHeld};
ghost use Rattle.commit_log.specs.Locks.{Sound, held};
ghost use Rattle.commit_log.specs.Samples.{taking, inode, root, reply_of, d_key, e_key, d_e, x, yes, opens, shares, takes, gives, does, stops, evicts, ann_opens, ben_opens, ben_opens_apart, ann_makes, made_with_locks, ann_alone, ann_looks};
ghost use Rattle.commit_log.specs.WorkedRuns.{made_and_seen};
ghost use Rattle.name_space.specs.declared.call.Call.TheVariants.{Rename};

/// What is held just before the first answer of a run, and at its end.
#[tactic(auto, unfolding(crate::specs::Locks::held))]
pub fn locks_are_held_until_the_answer()
    ensures held { held (take 4 made_and_seen.notes) ≡ taking 1 root ∷ taking 1 (inode 1 (codes "a")) ∷ taking 1 (reply_of 0) ∷ [] }
    ensures given { held made_and_seen.notes ≡ [] }
{}

/// A key goes to one session alone or to several that share it.
#[tactic(auto, unfolding(crate::specs::Along::Each, crate::specs::Locks::held, hops_base::specs::Key::key_cmp))]
pub fn keys_are_shared_or_alone()
    ensures shared { Sound (ann_opens ∷ ben_opens ∷ shares 1 root ∷ shares 2 root ∷ []) }
    ensures two_keys { Sound (ann_opens ∷ ben_opens ∷ takes 1 root ∷ takes 2 d_key ∷ []) }
    ensures two_conflict { ¬ Sound (ann_opens ∷ ben_opens ∷ takes 1 root ∷ takes 2 root ∷ []) }
    ensures one_shares { ¬ Sound (ann_opens ∷ ben_opens ∷ shares 1 root ∷ takes 2 root ∷ []) }
    ensures one_asks_to_share { ¬ Sound (ann_opens ∷ ben_opens ∷ takes 1 root ∷ shares 2 root ∷ []) }
{}

/// A session that gives its locks back, answers, or was opened at a namenode that is gone leaves its keys to others.
#[tactic(auto, unfolding(crate::specs::Along::Each, crate::specs::Locks::held, hops_base::specs::Key::key_cmp))]
pub fn locks_are_given_back()
    ensures given { Sound (ann_opens ∷ ben_opens ∷ takes 1 root ∷ gives 1 ∷ takes 2 root ∷ []) }
    ensures answered { Sound (ann_opens ∷ ben_opens ∷ takes 1 root ∷ ann_makes ∷ takes 2 root ∷ []) }
    ensures stopped { Sound (ann_opens ∷ ben_opens_apart ∷ takes 1 root ∷ stops 0 ∷ takes 2 root ∷ []) }
    ensures evicted { Sound (ann_opens ∷ ben_opens_apart ∷ takes 1 root ∷ evicts 0 ∷ takes 2 root ∷ []) }
    ensures another_gives { ¬ Sound (ann_opens ∷ ben_opens ∷ opens 3 0 2 0 ∷ takes 1 root ∷ gives 3 ∷ takes 2 root ∷ []) }
    ensures another_is_gone { ¬ Sound (ann_opens ∷ ben_opens ∷ takes 1 root ∷ stops 1 ∷ takes 2 root ∷ []) }
    ensures gone_before { ¬ Sound (evicts 0 ∷ ann_opens ∷ ben_opens ∷ takes 1 root ∷ takes 2 root ∷ []) }
{}

/// A session takes its keys in their order.
#[tactic(auto, unfolding(crate::specs::Along::Each, crate::specs::Locks::held, hops_base::specs::Key::key_cmp))]
pub fn keys_rise()
    ensures rise { Sound (ann_opens ∷ takes 1 root ∷ takes 1 d_key ∷ takes 1 (reply_of 0) ∷ []) }
    ensures fall { ¬ Sound (ann_opens ∷ takes 1 d_key ∷ takes 1 root ∷ []) }
    ensures key_twice { ¬ Sound (ann_opens ∷ shares 1 root ∷ takes 1 root ∷ []) }
    ensures from_the_first_again { Sound (ann_opens ∷ takes 1 d_key ∷ gives 1 ∷ takes 1 root ∷ []) }
    ensures of_two { Sound (ann_opens ∷ ben_opens ∷ takes 1 d_key ∷ takes 2 root ∷ []) }
{}

/// A session that answers holds its client's reply key and a key for each path of its call.
#[tactic(auto, unfolding(crate::specs::Along::Each, crate::specs::Locks::held, crate::specs::Ids::ids, crate::specs::Legal::space, hops_base::specs::Key::key_cmp))]
pub fn answers_are_held()
    ensures held { AnswersHeld ann_alone (ann_opens ∷ takes 1 root ∷ takes 1 (reply_of 0) ∷ ann_makes ∷ []) }
    ensures no_reply_key { ¬ AnswersHeld ann_alone (ann_opens ∷ takes 1 root ∷ ann_makes ∷ []) }
    ensures reply_key_of_another { ¬ AnswersHeld ann_alone (ann_opens ∷ takes 1 root ∷ takes 1 (reply_of 1) ∷ ann_makes ∷ []) }
    ensures no_key { ¬ AnswersHeld ann_alone (ann_opens ∷ takes 1 (reply_of 0) ∷ ann_makes ∷ []) }
    ensures another_holds { ¬ AnswersHeld ann_alone (ann_opens ∷ takes 2 root ∷ takes 2 (reply_of 0) ∷ ann_makes ∷ []) }
{}

/// The key for a path is that of its longest prefix which stands, by the id of the directory above.
#[tactic(auto, unfolding(crate::specs::Along::Each, crate::specs::Locks::held, crate::specs::Ids::ids, crate::specs::Legal::space, hops_base::specs::Key::key_cmp))]
pub fn each_path_has_its_key()
    ensures lowest { AnswersHeld ann_alone (made_with_locks (takes 2 e_key ∷ takes 2 (reply_of 0) ∷ ann_looks ∷ [])) }
    ensures too_high { ¬ AnswersHeld ann_alone (made_with_locks (takes 2 root ∷ takes 2 d_key ∷ takes 2 (reply_of 0) ∷ ann_looks ∷ [])) }
    ensures one_of_two { ¬ AnswersHeld ann_alone (made_with_locks (takes 2 root ∷ takes 2 (reply_of 0) ∷ does 2 0 2 (Rename d_e x) yes ∷ [])) }
    ensures both { AnswersHeld ann_alone (made_with_locks (takes 2 root ∷ takes 2 e_key ∷ takes 2 (reply_of 0) ∷ does 2 0 2 (Rename d_e x) yes ∷ [])) }
{}
