//! Worked examples of how a session goes on without a note: what each definition lets pass, and what it refuses.

ghost use Rattle.std.specs.Prelude.{◌≡◌, ◌-◌, ◌^◌, [], ◌∷◌, codes};
ghost use Rattle.commit_log.specs.Samples.{d_key};
ghost use Rattle.db_state.specs.declared.session.Stage.TheVariants.{Lock, Read, Reread, Commit, Answered};
ghost use Rattle.db_state.specs.Moves.{read_in, since_after, reads_after, left_in, IsTrail, LooksFor, RereadsOne, AreReadAgain, GoesOn, IsReadAsFound};
ghost use Rattle.db_state.specs.Steps.{start};
ghost use Rattle.db_state.specs.ReadSamples.{x_key, d_row, x_row, with_id, with_mode, with_quota, rows, rows_to, rows_without_d, names_for_d, only, whole, gap, reads, reads_with, alone};
ghost use Rattle.db_state.specs.CoreSamples.{d_and_x, d_quota};
ghost use Rattle.db_state.specs.MoveSamples.{list_of, finds, from_root, down_to, down_to_x, has_whole, finds_after, plans, has_locked, rereads, ready, read_twice, with_child, stored_with, hint};

/// A row that was found or missed was read, but for the root's.
#[tactic(auto, unfolding(hops_base::specs::Key::key_cmp))]
pub fn rows_that_are_looked_for_are_read()
    ensures nothing { read_in start ≡ 0 }
    ensures the_root { read_in (finds from_root) ≡ 0 }
    ensures a_row { read_in (finds (down_to d_row)) ≡ 1 }
    ensures a_missing_one { read_in (has_whole (gap d_row)) ≡ 2 }
    ensures of_a_whole_place { read_in (plans (whole d_row x_row) 0) ≡ 2 }
{}

/// One more is counted where a row was read, up to the greatest number; none for the root's row, and none for a plan.
#[tactic(auto, unfolding(hops_base::specs::Key::key_cmp))]
pub fn each_step_that_reads_is_counted()
    ensures a_row { reads_after (finds from_root) (finds (down_to d_row)) 4 ≡ 5 }
    ensures the_root { reads_after start (finds from_root) 4 ≡ 4 }
    ensures a_missing_one { reads_after (finds (down_to d_row)) (has_whole (gap d_row)) 4 ≡ 5 }
    ensures a_plan { reads_after (has_whole (gap d_row)) (plans (gap d_row) 0) 4 ≡ 4 }
    ensures the_greatest { reads_after start (finds (down_to d_row)) (2 ^ 64 - 1) ≡ 2 ^ 64 - 1 }
{}

/// A change is told since the book was as long as just before the attempt's first read.
#[tactic(auto, unfolding(hops_base::specs::Key::key_cmp))]
pub fn changes_are_told_since_the_first_read()
    ensures before_it { since_after start 3 7 ≡ 7 }
    ensures after_the_root { since_after (finds from_root) 3 7 ≡ 7 }
    ensures after_it { since_after (finds (down_to d_row)) 3 7 ≡ 3 }
    ensures under_locks { since_after (has_locked (whole d_row x_row)) 3 7 ≡ 3 }
{}

/// Once all places are whole the trail tells the rows of the first, but for the root's. Else it stays.
pub fn a_trail_tells_what_was_found()
    ensures told { IsTrail (has_whole (gap d_row)) (plans (gap d_row) 0) [] (hint 1 (codes "d") 2 ∷ []) }
    ensures whole { IsTrail (has_whole (whole d_row x_row)) (plans (whole d_row x_row) 0) []
        (hint 1 (codes "d") 2 ∷ hint 2 (codes "x") 3 ∷ []) }
    ensures of_the_first { IsTrail start (Lock (list_of 2 (gap d_row ∷ whole d_row x_row ∷ [])) [] 0) []
        (hint 1 (codes "d") 2 ∷ []) }
    ensures not_told { ¬ IsTrail (has_whole (gap d_row)) (plans (gap d_row) 0) [] [] }
    ensures stays { IsTrail (finds from_root) (finds (down_to d_row)) (hint 1 (codes "d") 2 ∷ []) (hint 1 (codes "d") 2 ∷ []) }
    ensures forgotten { ¬ IsTrail (finds from_root) (finds (down_to d_row)) (hint 1 (codes "d") 2 ∷ []) [] }
{}

/// A session that resolves keeps what it has found, and looks for one row more at most, which is the table's.
pub fn one_row_is_looked_for()
    ensures the_root { LooksFor (rows d_row x_row) start (finds from_root) }
    ensures a_row { LooksFor (rows d_row x_row) start (finds (down_to d_row)) }
    ensures a_missing_one { LooksFor (rows_to d_row) (finds (down_to d_row)) (has_whole (gap d_row)) }
    ensures not_the_tables { ¬ LooksFor (rows d_row x_row) (finds from_root) (finds (down_to (with_id 9 d_row))) }
    ensures not_missing { ¬ LooksFor (rows d_row x_row) (finds (down_to d_row)) (has_whole (gap d_row)) }
    ensures two_rows { ¬ LooksFor (rows d_row x_row) start (finds (down_to_x d_row x_row)) }
    ensures lost { ¬ LooksFor (rows d_row x_row) (finds (down_to d_row)) start }
{}

/// A session that resolves keeps its whole places. A row that was found may come again, as it was. A row and a missing name are
/// looked for one at a time.
#[tactic(auto, unfolding(hops_base::specs::Key::key_cmp))]
pub fn what_was_found_is_kept()
    ensures goes_on { GoesOn (rows d_row x_row) (finds from_root) (finds (down_to d_row)) }
    ensures goes_back { ¬ GoesOn (rows d_row x_row) (finds (down_to d_row)) start }
    ensures comes_again { LooksFor (rows_without_d x_row) (has_whole (whole d_row x_row)) (finds_after (whole d_row x_row) (down_to d_row)) }
    ensures comes_as_another { ¬ LooksFor (rows_without_d x_row) (has_whole (whole d_row x_row))
        (finds_after (whole d_row x_row) (down_to (with_id 9 d_row))) }
    ensures another_row { ¬ LooksFor (rows_to d_row) (finds (down_to d_row)) (has_whole (gap (with_id 9 d_row))) }
    ensures place_lost { ¬ LooksFor (rows d_row x_row) (has_whole (whole d_row x_row)) (finds (down_to_x d_row x_row)) }
    ensures both_at_once { ¬ LooksFor (rows_to d_row) (finds from_root) (has_whole (gap d_row)) }
{}

/// It plans once, and holds nothing then.
pub fn nothing_is_held_with_a_new_plan()
    ensures a_plan { GoesOn (rows_to d_row) (has_whole (gap d_row)) (plans (gap d_row) 0) }
    ensures of_other_rows { ¬ GoesOn (rows_to d_row) (has_whole (gap d_row)) (plans (gap (with_id 9 d_row)) 0) }
    ensures holding { ¬ GoesOn (rows_to d_row) (has_whole (gap d_row)) (plans (gap d_row) 1) }
    ensures reading { ¬ GoesOn (rows_to d_row) (has_whole (gap d_row)) (has_locked (gap d_row)) }
    ensures by_itself { ¬ GoesOn (rows_to d_row) (plans (gap d_row) 0) (has_locked (gap d_row)) }
{}

/// Locked rows are read once more as the table has them, and the others stay. Those are left to be read again.
#[tactic(auto, unfolding(hops_base::specs::Key::key_cmp))]
pub fn locked_rows_come_from_the_table()
    ensures as_found { GoesOn (rows d_row x_row) (has_locked (whole d_row x_row)) (rereads (whole d_row x_row) 2) }
    ensures the_tables { GoesOn (rows d_row (with_mode 448 x_row)) (has_locked (whole d_row x_row))
        (rereads (whole d_row (with_mode 448 x_row)) 2) }
    ensures not_the_tables { ¬ GoesOn (rows d_row (with_mode 448 x_row)) (has_locked (whole d_row x_row)) (rereads (whole d_row x_row) 2) }
    ensures marked_above { ¬ GoesOn (rows d_row x_row) (has_locked (whole d_row x_row)) (rereads (whole d_row x_row) 1) }
    ensures not_locked { ¬ GoesOn (rows (with_mode 448 d_row) x_row) (has_locked (whole d_row x_row))
        (rereads (whole (with_mode 448 d_row) x_row) 2) }
    ensures left { ¬ GoesOn (rows d_row x_row) (has_locked (whole d_row x_row)) (ready (whole d_row x_row) 1) }
{}

/// Where all rows are locked none is left to be read again, and the session comes to answer at once. Its plan and its places stay.
#[tactic(auto, unfolding(hops_base::specs::Key::key_cmp))]
pub fn nothing_is_left_where_all_is_locked()
    ensures at_once { GoesOn (rows d_row x_row) (Read (list_of 1 (whole d_row x_row ∷ [])) d_and_x)
        (Commit (reads (whole d_row x_row) 1) d_and_x) }
    ensures none_left { ¬ GoesOn (rows d_row x_row) (Read (list_of 1 (whole d_row x_row ∷ [])) d_and_x)
        (Reread (reads (whole d_row x_row) 2) d_and_x) }
    ensures another_plan { ¬ GoesOn (rows d_row x_row) (Read (list_of 1 (whole d_row x_row ∷ [])) d_and_x)
        (Commit (reads (whole d_row x_row) 1) (alone d_key)) }
    ensures no_place { ¬ AreReadAgain (rows d_row x_row) (alone x_key) (whole d_row x_row ∷ []) [] }
    ensures one_more { ¬ AreReadAgain (rows d_row x_row) (alone x_key) [] (whole d_row x_row ∷ []) }
{}

/// What is left are the rows that aren't locked, from the deepest upwards, path by path; never the root's.
#[tactic(auto, unfolding(hops_base::specs::Key::key_cmp))]
pub fn the_deepest_row_is_read_first()
    ensures one { left_in (alone x_key) (reads (whole d_row x_row) 2) ≡ (d_key, d_row) ∷ [] }
    ensures upwards { left_in [] (reads (whole d_row x_row) 3) ≡ (x_key, x_row) ∷ (d_key, d_row) ∷ [] }
    ensures locked { left_in (alone d_key) (reads (whole d_row x_row) 3) ≡ (x_key, x_row) ∷ [] }
    ensures above_the_mark { left_in [] (reads (whole d_row x_row) 2) ≡ (d_key, d_row) ∷ [] }
    ensures none { left_in [] (reads (whole d_row x_row) 1) ≡ [] }
    ensures path_by_path { left_in [] (record { places = gap d_row ∷ whole d_row x_row ∷ []; marks = 2 ∷ 3 ∷ []; quotas = [] })
        ≡ (d_key, d_row) ∷ (x_key, x_row) ∷ (d_key, d_row) ∷ [] }
{}

/// One row that is left is read again, where it is as it was found; then the reads are the same, and the mark no greater.
#[tactic(auto, unfolding(hops_base::specs::Key::key_cmp))]
pub fn rows_are_read_again_one_by_one()
    ensures the_last { RereadsOne (rows d_row x_row) (alone x_key) (reads (whole d_row x_row) 2) (reads (whole d_row x_row) 1) }
    ensures first_of_two { RereadsOne (rows d_row x_row) [] (reads (whole d_row x_row) 3) (reads (whole d_row x_row) 2) }
    ensures above_differs { RereadsOne (rows (with_id 9 d_row) x_row) [] (reads (whole d_row x_row) 3) (reads (whole d_row x_row) 2) }
    ensures two_at_once { ¬ RereadsOne (rows d_row x_row) [] (reads (whole d_row x_row) 3) (reads (whole d_row x_row) 1) }
    ensures none { ¬ RereadsOne (rows d_row x_row) [] (reads (whole d_row x_row) 1) (reads (whole d_row x_row) 1) }
    ensures differs { ¬ RereadsOne (rows (with_id 9 d_row) x_row) (alone x_key) (reads (whole d_row x_row) 2) (reads (whole d_row x_row) 1) }
    ensures other_reads { ¬ RereadsOne (rows d_row x_row) (alone x_key) (reads (whole d_row x_row) 2) (reads (whole (with_mode 448 d_row) x_row) 1) }
    ensures other_quotas { ¬ RereadsOne (rows d_row x_row) (alone x_key) (reads (whole d_row x_row) 2)
        (reads_with (names_for_d 8 ∷ []) (whole d_row x_row) 1) }
    ensures mark_rises { ¬ RereadsOne (rows d_row x_row) (alone x_key) (read_twice (whole d_row x_row) 2 0)
        (read_twice (whole d_row x_row) 1 1) }
{}

/// A session comes to answer with the last row that is left. Then it only looks up who has a child.
#[tactic(auto, unfolding(hops_base::specs::Key::key_cmp))]
pub fn nothing_is_left_for_the_answer()
    ensures done { GoesOn (rows d_row x_row) (rereads (whole d_row x_row) 2) (ready (whole d_row x_row) 1) }
    ensures one_of_two { GoesOn (rows d_row x_row) (Reread (reads (whole d_row x_row) 3) []) (Reread (reads (whole d_row x_row) 2) []) }
    ensures one_is_left { ¬ GoesOn (rows d_row x_row) (Reread (reads (whole d_row x_row) 3) []) (Commit (reads (whole d_row x_row) 2) []) }
    ensures another_plan { ¬ GoesOn (rows d_row x_row) (rereads (whole d_row x_row) 2) (Commit (reads (whole d_row x_row) 1) (alone d_key)) }
    ensures still { ¬ GoesOn (rows d_row x_row) (rereads (whole d_row x_row) 2) (rereads (whole d_row x_row) 1) }
    ensures child { GoesOn (rows d_row x_row) (ready (whole d_row x_row) 1) (ready (with_child (whole d_row x_row)) 1) }
    ensures another_row { ¬ GoesOn (rows d_row x_row) (ready (whole d_row x_row) 1) (ready (whole (with_mode 448 d_row) x_row) 1) }
    ensures another_mark { ¬ GoesOn (rows d_row x_row) (ready (whole d_row x_row) 1) (ready (whole d_row x_row) 0) }
    ensures other_quotas { ¬ GoesOn (rows d_row x_row) (ready (whole d_row x_row) 1)
        (Commit (reads_with (names_for_d 8 ∷ []) (whole d_row x_row) 1) (alone x_key)) }
    ensures other_locks { ¬ GoesOn (rows d_row x_row) (ready (whole d_row x_row) 1) (Commit (reads (whole d_row x_row) 1) (alone d_key)) }
    ensures the_end { ¬ GoesOn (rows d_row x_row) (ready (whole d_row x_row) 1) Answered }
{}

/// A change is found in what is read next alone: at the locked keys and missing names under locks, and then in the next row left.
#[tactic(auto, unfolding(hops_base::specs::Key::key_cmp))]
pub fn changes_are_found_where_rows_are_read()
    ensures under_locks { IsReadAsFound (stored_with (rows d_row x_row)) (has_locked (whole d_row x_row)) }
    ensures not_locked { IsReadAsFound (stored_with (rows (with_id 9 d_row) x_row)) (has_locked (whole d_row x_row)) }
    ensures locked_differs { ¬ IsReadAsFound (stored_with (rows d_row (with_id 9 x_row))) (has_locked (whole d_row x_row)) }
    ensures locked_is_gone { ¬ IsReadAsFound (stored_with (rows_to d_row)) (has_locked (whole d_row x_row)) }
    ensures is_missing_still { IsReadAsFound (stored_with (rows_to d_row)) (has_locked (gap d_row)) }
    ensures is_there_now { ¬ IsReadAsFound (stored_with (rows d_row x_row)) (has_locked (gap d_row)) }
    ensures no_quota_row { ¬ IsReadAsFound (stored_with (rows (with_quota d_row) x_row))
        (Read (list_of 1 (whole (with_quota d_row) x_row ∷ [])) (alone d_quota)) }
    ensures has_its_quota_row { IsReadAsFound (record (stored_with (rows (with_quota d_row) x_row)) { quotas = only (names_for_d 8) })
        (Read (list_of 1 (whole (with_quota d_row) x_row ∷ [])) (alone d_quota)) }
    ensures quota_not_locked { IsReadAsFound (stored_with (rows (with_quota d_row) x_row)) (has_locked (whole (with_quota d_row) x_row)) }
    ensures next_as_found { IsReadAsFound (stored_with (rows d_row (with_id 9 x_row))) (rereads (whole d_row x_row) 2) }
    ensures next_differs { ¬ IsReadAsFound (stored_with (rows (with_id 9 d_row) x_row)) (rereads (whole d_row x_row) 2) }
    ensures above_differs { IsReadAsFound (stored_with (rows (with_id 9 d_row) x_row))
        (Reread (reads (whole d_row x_row) 3) []) }
    ensures resolving { IsReadAsFound (stored_with (rows_to d_row)) (has_whole (whole d_row x_row)) }
    ensures planning { IsReadAsFound (stored_with (rows_to d_row)) (plans (whole d_row x_row) 0) }
    ensures answering { IsReadAsFound (stored_with (rows_to d_row)) (ready (whole d_row x_row) 1) }
    ensures over { IsReadAsFound (stored_with (rows_to d_row)) Answered }
{}
