//! Worked examples of what the core keeps and of how it changes: what each definition lets pass, and what it refuses.

ghost use Rattle.std.specs.Prelude.{◌≡◌, true, false, [], ◌∷◌, ◌++◌, Some, None};
ghost use Rattle.std.specs.FinMap as map;
ghost use Rattle.hops_base.specs.Ids.{session, client, node};
ghost use Rattle.hops_base.specs.declared.ids.Mode.TheVariants.{Shared, Exclusive};
ghost use Rattle.commit_log.specs.Samples.{d_x, d_key, make, look, yes, opens, shares, takes, gives, does, meets_change, ann_flags, batches, reclaims, e_is_cut, meets_flag, meets_loss, wants, stops, evicts};
ghost use Rattle.db_state.specs.declared.session.Stage.TheVariants.{Answered};
ghost use Rattle.db_state.specs.Stored.{root_key, root_row};
ghost use Rattle.db_state.specs.State.{empty_seat};
ghost use Rattle.db_state.specs.BookParts.{is_beyond, opens_past, NeverFallsAt, IsLastAt, IsSeat, IsSeated};
ghost use Rattle.db_state.specs.LockParts.{AreOfBook};
ghost use Rattle.db_state.specs.SessionParts.{LeadAlong, AreQuotasSeen, AreOld};
ghost use Rattle.db_state.specs.Steps.{start, new_session, next_session, opened_by, HasNoOpen, one_more, Gives, Changes};
ghost use Rattle.db_state.specs.Waits.{Waits};
ghost use Rattle.db_state.specs.ReadSamples.{x_key, d_row, x_row, with_mode, with_quota, names_for_d, whole, gap, reads, reads_with, alone};
ghost use Rattle.db_state.specs.CoreSamples.{seat_with, first_at, alone_in, d_and_x, at_key, with_all, one_lock, d_quota};
ghost use Rattle.db_state.specs.CoreSamples.{state_with, has_answered, asking, took_d, holder, holding, begun_anew, anew};
ghost use Rattle.db_state.specs.MoveSamples.{finds, down_to, has_whole};

/// The number of a client's next call is none before that of an earlier one.
pub fn numbers_of_calls_never_fall()
    ensures next { NeverFallsAt (opens 1 0 1 0 ∷ []) (opens 2 0 2 0) }
    ensures again { NeverFallsAt (opens 1 0 2 0 ∷ []) (opens 2 0 2 0) }
    ensures before { ¬ NeverFallsAt (opens 1 0 2 0 ∷ []) (opens 2 0 1 0) }
    ensures another_client { NeverFallsAt (opens 1 1 2 0 ∷ []) (opens 2 0 1 0) }
    ensures another_note { NeverFallsAt (opens 1 0 2 0 ∷ []) (does 1 0 1 make yes) }
{}

/// Whoever answers is the last session of its client. Where a client has none, each that the book opens for it is past it.
pub fn the_last_session_answers()
    ensures the_last { IsLastAt (opens 1 0 1 0 ∷ opens 2 0 2 0 ∷ []) (does 2 0 2 make yes) }
    ensures one_before { ¬ IsLastAt (opens 1 0 1 0 ∷ opens 2 0 2 0 ∷ []) (does 1 0 1 make yes) }
    ensures another_client { IsLastAt (opens 1 0 1 0 ∷ opens 2 1 1 0 ∷ []) (does 1 0 1 make yes) }
    ensures another_note { IsLastAt (opens 1 0 1 0 ∷ opens 2 0 2 0 ∷ []) (gives 1) }
    ensures past_none { opens_past (client 0) None (opens 1 0 1 0) ≡ true }
    ensures past_none_of_another { opens_past (client 1) None (opens 1 0 1 0) ≡ false }
{}

/// The book tells of no call, answer or session of a client after those that its seat tells of last, and its last session is
/// there.
pub fn the_book_tells_of_a_seat()
    ensures told { IsSeat (alone_in (first_at start)) (opens 1 0 1 0 ∷ []) (client 0)
        (seat_with 1 0 (Some (session 1))) }
    ensures later_call { ¬ IsSeat (alone_in (first_at start)) (opens 1 0 1 0 ∷ []) (client 0)
        (seat_with 0 0 (Some (session 1))) }
    ensures later_answer { ¬ IsSeat (alone_in (first_at Answered)) (opens 1 0 1 0 ∷ does 1 0 1 make yes ∷ [])
        (client 0) (seat_with 1 0 (Some (session 1))) }
    ensures later_session { ¬ IsSeat (alone_in (first_at start)) (opens 1 0 1 0 ∷ []) (client 0)
        (seat_with 1 0 None) }
    ensures nobody_there { ¬ IsSeat map.empty (opens 1 0 1 0 ∷ []) (client 0)
        (seat_with 1 0 (Some (session 1))) }
    ensures another_clients { ¬ IsSeat (alone_in (record (first_at start) { client = client 1 }))
        (opens 1 0 1 0 ∷ []) (client 0) (seat_with 1 0 (Some (session 1))) }
{}

/// A session sits in its client's seat. While it is open it is for the call that was begun last, which wasn't answered yet.
pub fn sessions_sit_in_seats()
    ensures running { IsSeated (seat_with 1 0 (Some (session 1)) ∷ []) (session 1) (first_at start) }
    ensures no_seat { ¬ IsSeated [] (session 1) (first_at start) }
    ensures another_last { ¬ IsSeated (seat_with 1 0 (Some (session 2)) ∷ []) (session 1) (first_at start) }
    ensures another_number { ¬ IsSeated (seat_with 2 0 (Some (session 1)) ∷ []) (session 1) (first_at start) }
    ensures answered { ¬ IsSeated (seat_with 1 1 (Some (session 1)) ∷ []) (session 1) (first_at start) }
    ensures over { IsSeated (seat_with 2 1 (Some (session 1)) ∷ []) (session 1) (first_at Answered) }
{}

/// The table has the locks that the book tells of, each its holder's, on its key and in its mode, and no other.
#[tactic(auto, unfolding(hops_base::specs::Key::key_cmp))]
pub fn locks_are_those_of_the_book()
    ensures taken { AreOfBook (one_lock 1 d_key Shared) (opens 1 0 1 0 ∷ shares 1 d_key ∷ []) }
    ensures given_back { AreOfBook map.empty (opens 1 0 1 0 ∷ shares 1 d_key ∷ gives 1 ∷ []) }
    ensures another_mode { ¬ AreOfBook (one_lock 1 d_key Exclusive)
        (opens 1 0 1 0 ∷ shares 1 d_key ∷ []) }
    ensures another_holder { ¬ AreOfBook (one_lock 2 d_key Shared)
        (opens 1 0 1 0 ∷ shares 1 d_key ∷ []) }
    ensures not_in_the_table { ¬ AreOfBook map.empty (opens 1 0 1 0 ∷ shares 1 d_key ∷ []) }
    ensures not_in_the_book { ¬ AreOfBook (one_lock 1 d_key Shared) (opens 1 0 1 0 ∷ []) }
{}

/// A session takes its keys in turn, and reads once it has the last. It waits for whoever holds the next.
#[tactic(auto, unfolding(hops_base::specs::Key::key_cmp))]
pub fn keys_are_taken_in_turn()
    ensures one_of_two { one_more (at_key 0 d_and_x) ≡ at_key 1 d_and_x }
    ensures the_last { one_more (at_key 1 d_and_x) ≡ with_all d_and_x }
    ensures waits { Waits (asking (one_lock 2 d_key Shared)) (session 1) (session 2) }
    ensures for_no_other { ¬ Waits (asking (one_lock 2 d_key Shared)) (session 1) (session 3) }
    ensures another_key { ¬ Waits (asking (one_lock 2 x_key Shared)) (session 1) (session 2) }
    ensures has_them { ¬ Waits holding (session 1) (session 1) }
{}

/// Each row that was found with a quota has its quota row among those seen, where the key of that is locked.
#[tactic(auto, unfolding(hops_base::specs::Key::key_cmp))]
pub fn locked_quotas_are_seen()
    ensures seen { AreQuotasSeen (alone d_quota)
        (reads_with (names_for_d 8 ∷ []) (gap (with_quota d_row)) 1) }
    ensures not_seen { ¬ AreQuotasSeen (alone d_quota) (reads (gap (with_quota d_row)) 1) }
    ensures not_locked { AreQuotasSeen (alone d_key) (reads (gap (with_quota d_row)) 1) }
    ensures no_quota { AreQuotasSeen (alone d_quota) (reads (gap d_row) 1) }
{}

/// The rows that are found one by one lead from the root's own along the path.
pub fn rows_lead_along_a_path()
    ensures none_yet { LeadAlong d_x [] }
    ensures the_root { LeadAlong d_x ((root_key, root_row) ∷ []) }
    ensures on_the_way { LeadAlong d_x ((root_key, root_row) ∷ (d_key, d_row) ∷ []) }
    ensures another_root { ¬ LeadAlong d_x ((root_key, with_mode 448 root_row) ∷ []) }
    ensures elsewhere { ¬ LeadAlong d_x ((root_key, root_row) ∷ (x_key, x_row) ∷ []) }
{}

/// A client has one open session at a time. The next that is opened has the next number, and takes the place of the last.
pub fn clients_have_one_open_session()
    ensures never_called { HasNoOpen (state_with [] map.empty empty_seat map.empty) (client 0) }
    ensures over { HasNoOpen has_answered (client 0) }
    ensures running { ¬ HasNoOpen holding (client 0) }
    ensures number { next_session has_answered ≡ session 2 }
    ensures seat { (opened_by has_answered (client 0) 2 look (node 0)).seats ≡ seat_with 2 1 (Some (session 2)) ∷ [] }
    ensures sessions { let after = (opened_by has_answered (client 0) 2 look (node 0)).sessions in
        (map.get after 1 ≡ None) × (map.get after 2 ≡ Some (new_session (client 0) 2 look (node 0) 2)) }
{}

/// A session that holds keys and begins anew gives them back, tells so, and counts from there. One that has met a change tells
/// of that too.
#[tactic(auto, unfolding(hops_base::specs::Key::key_cmp))]
pub fn sessions_give_back_and_begin_anew()
    ensures given { Gives holding (anew (took_d ++ gives 1 ∷ []) map.empty (begun_anew 3)) (session 1) holder start }
    ensures no_note { ¬ Gives holding (anew took_d map.empty (begun_anew 2)) (session 1) holder start }
    ensures still_held { ¬ Gives holding (anew (took_d ++ gives 1 ∷ []) (one_lock 1 d_key Exclusive) (begun_anew 3))
        (session 1) holder start }
    ensures since_before { ¬ Gives holding (anew (took_d ++ gives 1 ∷ []) map.empty (begun_anew 2)) (session 1)
        holder start }
    ensures still_first { ¬ Gives holding
        (anew (took_d ++ gives 1 ∷ []) map.empty (record (begun_anew 3) { is_first = true })) (session 1) holder start }
    ensures still_hinted { ¬ Gives holding
        (anew (took_d ++ gives 1 ∷ []) map.empty (record (begun_anew 3) { used_hints = true })) (session 1) holder start }
    ensures changed { Changes holding
        (anew (took_d ++ gives 1 ∷ meets_change 1 1 ∷ []) map.empty (begun_anew 4)) (session 1) holder }
    ensures not_told { ¬ Changes holding (anew (took_d ++ gives 1 ∷ []) map.empty (begun_anew 3)) (session 1) holder }
    ensures changed_but_first { ¬ Changes holding
        (anew (took_d ++ gives 1 ∷ meets_change 1 1 ∷ []) map.empty (record (begun_anew 4) { is_first = true }))
        (session 1) holder }
    ensures changed_but_hinted { ¬ Changes holding
        (anew (took_d ++ gives 1 ∷ meets_change 1 1 ∷ []) map.empty (record (begun_anew 4) { used_hints = true }))
        (session 1) holder }
{}

/// The notes of operations and of namenodes that are gone aren't in the book of what is built.
pub fn what_is_not_built_is_not_told()
    ensures a_flag { is_beyond ann_flags ≡ true }
    ensures a_batch { is_beyond (batches 1 1) ≡ true }
    ensures a_reclaim { is_beyond (reclaims 1 1) ≡ true }
    ensures a_cut { is_beyond e_is_cut ≡ true }
    ensures meeting_a_flag { is_beyond (meets_flag 1 1) ≡ true }
    ensures meeting_a_loss { is_beyond (meets_loss 1 1) ≡ true }
    ensures a_stop { is_beyond (stops 0) ≡ true }
    ensures an_eviction { is_beyond (evicts 0) ≡ true }
    ensures opening { is_beyond (opens 1 0 1 0) ≡ false }
    ensures taking { is_beyond (takes 1 d_key) ≡ false }
    ensures giving { is_beyond (gives 1) ≡ false }
    ensures answering { is_beyond (does 1 0 1 make yes) ≡ false }
    ensures meeting_a_lock { is_beyond (wants 1 d_key 2) ≡ false }
    ensures meeting_a_change { is_beyond (meets_change 1 1) ≡ false }
{}

/// Each row that a session has found has an id below the next free one.
pub fn rows_that_were_found_are_old()
    ensures below { AreOld 3 (alone_in (first_at (finds (down_to d_row)))) }
    ensures not_below { ¬ AreOld 2 (alone_in (first_at (finds (down_to d_row)))) }
    ensures of_a_whole_place { ¬ AreOld 3 (alone_in (first_at (has_whole (whole d_row x_row)))) }
    ensures nothing_found { AreOld 0 (alone_in (first_at start)) }
    ensures no_session { AreOld 0 map.empty }
{}
