//! Which namenodes stop or are evicted, and when.

ghost use Rattle.std.specs.Prelude.{[], ◌∷◌};
ghost use Rattle.hops_base.specs.Ids.{node};
ghost use Rattle.commit_log.specs.Along.{Each};
ghost use Rattle.commit_log.specs.Members.{EvictsMembersAt, VoidIsSilentAt};
ghost use Rattle.commit_log.specs.Samples.{root, opens, takes, gives, meets_change, meets_loss, stops, evicts, ann_opens, ben_opens, ben_opens_apart, ann_makes, ann_flags, ben_makes};
ghost use Rattle.commit_log.specs.Stops.{StopsKept};

/// A namenode stops right behind the commit that was set for it, with a Gave between at most.
#[tactic(auto, unfolding(crate::specs::Along::Each))]
pub fn stops_are_in_time()
    ensures in_time { StopsKept ((node 0, 1) ∷ []) (ann_opens ∷ ann_makes ∷ stops 0 ∷ opens 2 0 1 1 ∷ []) }
    ensures second { StopsKept ((node 0, 2) ∷ []) (ann_opens ∷ ann_flags ∷ ann_makes ∷ stops 0 ∷ []) }
    ensures behind_a_gave { StopsKept ((node 0, 1) ∷ []) (ann_opens ∷ ann_flags ∷ gives 1 ∷ stops 0 ∷ []) }
    ensures late { ¬ StopsKept ((node 0, 1) ∷ []) (ann_opens ∷ ben_opens ∷ ann_makes ∷ ben_makes ∷ stops 0 ∷ []) }
    ensures early { ¬ StopsKept ((node 0, 1) ∷ []) (ann_opens ∷ stops 0 ∷ []) }
    ensures opened_between { ¬ StopsKept ((node 0, 1) ∷ []) (ann_opens ∷ ann_makes ∷ ben_opens_apart ∷ stops 0 ∷ []) }
    ensures behind_two { ¬ StopsKept ((node 0, 1) ∷ []) (ann_opens ∷ ann_flags ∷ gives 1 ∷ gives 1 ∷ stops 0 ∷ []) }
    ensures behind_a_gave_alone { ¬ StopsKept ((node 0, 1) ∷ []) (ann_opens ∷ ann_flags ∷ takes 1 root ∷ gives 1 ∷ stops 0 ∷ []) }
{}

/// Each stop that was set comes, and no other. Nothing is opened there any more.
#[tactic(auto, unfolding(crate::specs::Along::Each))]
pub fn stops_are_those_that_were_set()
    ensures missing { ¬ StopsKept ((node 0, 1) ∷ []) (ann_opens ∷ ann_makes ∷ []) }
    ensures not_come_to { StopsKept ((node 0, 2) ∷ []) (ann_opens ∷ ann_makes ∷ []) }
    ensures not_set { ¬ StopsKept [] (ann_opens ∷ ann_makes ∷ stops 0 ∷ []) }
    ensures of_another { ¬ StopsKept ((node 1, 1) ∷ []) (ann_opens ∷ ann_makes ∷ stops 0 ∷ []) }
    ensures commit_of_another { StopsKept ((node 0, 1) ∷ []) (opens 1 0 1 1 ∷ ann_makes ∷ []) }
    ensures opened_there { ¬ StopsKept ((node 0, 1) ∷ []) (ann_opens ∷ ann_makes ∷ stops 0 ∷ ben_opens ∷ []) }
    ensures opened_where_evicted { StopsKept [] (ann_opens ∷ ben_opens_apart ∷ evicts 0 ∷ opens 3 0 1 0 ∷ []) }
{}

/// Members alone are evicted, and another namenode is there to do it.
#[tactic(auto, unfolding(crate::specs::Along::Each))]
pub fn members_are_evicted()
    ensures member { Each EvictsMembersAt (ann_opens ∷ ben_opens_apart ∷ evicts 0 ∷ []) }
    ensures stopped { Each EvictsMembersAt (ann_opens ∷ ben_opens_apart ∷ stops 0 ∷ evicts 0 ∷ []) }
    ensures no_member { ¬ Each EvictsMembersAt (opens 1 0 1 1 ∷ evicts 0 ∷ []) }
    ensures no_other { ¬ Each EvictsMembersAt (ann_opens ∷ evicts 0 ∷ []) }
    ensures no_member_beside_two { ¬ Each EvictsMembersAt (opens 1 0 1 1 ∷ opens 2 1 1 2 ∷ evicts 0 ∷ []) }
    ensures twice { ¬ Each EvictsMembersAt (ann_opens ∷ ben_opens_apart ∷ evicts 0 ∷ evicts 0 ∷ []) }
    ensures member_again { Each EvictsMembersAt (ann_opens ∷ ben_opens_apart ∷ evicts 0 ∷ opens 3 0 1 0 ∷ evicts 0 ∷ []) }
    ensures other_was_evicted { Each EvictsMembersAt (ann_opens ∷ ben_opens_apart ∷ evicts 1 ∷ evicts 0 ∷ []) }
    ensures other_has_stopped { ¬ Each EvictsMembersAt (ann_opens ∷ ben_opens_apart ∷ stops 1 ∷ evicts 0 ∷ []) }
{}

/// The sessions of a namenode that is gone do nothing more but learn of a loss.
#[tactic(auto, unfolding(crate::specs::Along::Each))]
pub fn void_sessions_are_silent()
    ensures lost { Each VoidIsSilentAt (ann_opens ∷ ann_flags ∷ evicts 0 ∷ meets_loss 1 1 ∷ []) }
    ensures opened_later { Each VoidIsSilentAt (evicts 0 ∷ ann_opens ∷ ann_makes ∷ []) }
    ensures of_another { Each VoidIsSilentAt (ann_opens ∷ ben_opens_apart ∷ evicts 0 ∷ ben_makes ∷ []) }
    ensures void_answer { ¬ Each VoidIsSilentAt (ann_opens ∷ evicts 0 ∷ ann_makes ∷ []) }
    ensures void_lock { ¬ Each VoidIsSilentAt (ann_opens ∷ stops 0 ∷ takes 1 root ∷ []) }
    ensures void_conflict { ¬ Each VoidIsSilentAt (ann_opens ∷ stops 0 ∷ meets_change 1 1 ∷ []) }
{}
