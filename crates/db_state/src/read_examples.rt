//! Worked examples of what stands of what a session has read, and of what it holds: what each definition lets pass, and
//! what it refuses.

ghost use Rattle.std.specs.Prelude.{◌≡◌, [], ◌∷◌, ◌++◌, codes, Some, None};
ghost use Rattle.hops_base.specs.Ids.{session, operation};
ghost use Rattle.commit_log.specs.Samples.{ben, make, yes, opens, gives, does, stops};
ghost use Rattle.db_state.specs.Stored.{root_row};
ghost use Rattle.db_state.specs.Reads.{AllRead, IsChain, AreReads, AllStand, ReadsStand, AllFixed, locked_by};
ghost use Rattle.db_state.specs.ReadSteps.{SameRow, IsReadAgain, IsPlaceRead, last_marks, LeadsTo};
ghost use Rattle.db_state.specs.Holding.{HoldsAll, AreSameLocks, Leaves};
ghost use Rattle.db_state.specs.ReadSamples.{d_x, d_key, x_key, d_row, x_row, with_id, as_file, written_by, with_mode, with_quota, flagged_by};
ghost use Rattle.db_state.specs.ReadSamples.{rows, rows_to, rows_without_d, names_for_d, only, whole_from, whole, gap, reads, reads_with};
ghost use Rattle.db_state.specs.ReadSamples.{makes_x, changes_x, removes_x, StandsFor, alone, shared, held_by};

/// What was read stands where nothing has changed since.
#[tactic(auto, unfolding(hops_base::specs::Key::key_cmp))]
pub fn reads_stand_as_they_were_read()
    ensures whole { StandsFor changes_x (whole d_row x_row) 2 (rows d_row x_row) }
    ensures all_rows { StandsFor changes_x (whole d_row x_row) 1 (rows d_row x_row) }
{}

/// A locked row stands as it was found, with its writer and its mode, also above the mark.
#[tactic(auto, unfolding(hops_base::specs::Key::key_cmp))]
pub fn locked_rows_stay()
    ensures another_writer { ¬ StandsFor changes_x (whole d_row x_row) 2
        (rows d_row (written_by 1 x_row)) }
    ensures another_mode { ¬ StandsFor changes_x (whole d_row x_row) 2
        (rows d_row (with_mode 448 x_row)) }
    ensures gone { ¬ StandsFor changes_x (whole d_row x_row) 2 (rows_to d_row) }
    ensures above_the_mark { ¬ StandsFor removes_x (whole d_row x_row) 2
        (rows (with_mode 448 d_row) x_row) }
{}

/// What isn't locked and stands above the mark may change and go.
#[tactic(auto, unfolding(hops_base::specs::Key::key_cmp))]
pub fn rows_above_the_mark_may_change()
    ensures gone { StandsFor changes_x (whole d_row x_row) 2 (rows_without_d x_row) }
    ensures another { StandsFor changes_x (whole d_row x_row) 2 (rows (with_id 7 d_row) x_row) }
{}

/// From the mark on each row is there with its id and kind, and with no quota that it hadn't.
#[tactic(auto, unfolding(hops_base::specs::Key::key_cmp))]
pub fn rows_from_the_mark_on_stay()
    ensures gone { ¬ StandsFor changes_x (whole d_row x_row) 1 (rows_without_d x_row) }
    ensures another { ¬ StandsFor changes_x (whole d_row x_row) 1 (rows (with_id 7 d_row) x_row) }
    ensures a_file { ¬ StandsFor changes_x (whole d_row x_row) 1 (rows (as_file d_row) x_row) }
    ensures more_quota { ¬ StandsFor changes_x (whole d_row x_row) 1 (rows (with_quota d_row) x_row) }
    ensures less_quota { StandsFor changes_x (whole (with_quota d_row) x_row) 1 (rows d_row x_row) }
    ensures another_mode { StandsFor changes_x (whole d_row x_row) 1
        (rows (with_mode 448 d_row) x_row) }
{}

/// Nothing comes to stand at the first missing name.
#[tactic(auto, unfolding(hops_base::specs::Key::key_cmp))]
pub fn missing_names_stay_missing()
    ensures missing { StandsFor makes_x (gap d_row) 1 (rows_to d_row) }
    ensures there { ¬ StandsFor makes_x (gap d_row) 1 (rows d_row x_row) }
{}

/// Each place has a mark of its own, the number of one of its rows. All is read where each mark is the root's or that of the
/// row under it.
#[tactic(auto, unfolding(hops_base::specs::Key::key_cmp))]
pub fn marks_are_of_rows()
    ensures past_the_last { ¬ StandsFor changes_x (whole d_row x_row) 3 (rows d_row x_row) }
    ensures no_mark { ¬ AllStand (rows d_row x_row) (alone x_key) [] (whole d_row x_row ∷ []) }
    ensures another_place { ¬ AllStand (rows d_row x_row) (alone x_key) (2 ∷ 3 ∷ [])
        (whole d_row x_row ∷ whole d_row x_row ∷ []) }
    ensures all_read { AllRead (1 ∷ 0 ∷ []) }
    ensures not_all_read { ¬ AllRead (1 ∷ 2 ∷ []) }
{}

/// The quota rows at the locked quota keys are those that were read.
#[tactic(auto, unfolding(hops_base::specs::Key::key_cmp))]
pub fn quota_rows_stay()
    ensures another { ¬ ReadsStand (rows_to (with_quota d_row)) (only (names_for_d 9))
        (locked_by makes_x (reads (gap (with_quota d_row)) 1))
        (reads_with (names_for_d 8 ∷ []) (gap (with_quota d_row)) 1) }
    ensures not_read { ¬ ReadsStand (rows_to (with_quota d_row)) (only (names_for_d 9))
        (locked_by makes_x (reads (gap (with_quota d_row)) 1)) (reads (gap (with_quota d_row)) 1) }
{}

/// The rows of a place lead along its path from the root's own row to one that is locked, past no flag of another operation.
#[tactic(auto, unfolding(hops_base::specs::Key::key_cmp))]
pub fn chains_end_in_a_locked_row()
    ensures found { IsChain (alone x_key) None (whole d_row x_row) }
    ensures another_locked { ¬ IsChain (alone d_key) None (whole d_row x_row) }
    ensures another_root { ¬ IsChain (alone x_key) None
        (whole_from (with_mode 448 root_row) d_row x_row) }
    ensures elsewhere { ¬ IsChain (alone x_key) None (whole (with_id 7 d_row) x_row) }
    ensures flagged { ¬ IsChain (alone x_key) None (whole (flagged_by 1 d_row) x_row) }
    ensures own_flag { IsChain (alone x_key) (Some (operation 1)) (whole (flagged_by 1 d_row) x_row) }
{}

/// What is read for a call has a place for each of its paths, each a chain that ends in a row which the call locks.
#[tactic(auto, unfolding(hops_base::specs::Key::key_cmp))]
pub fn reads_are_of_their_call()
    ensures of_its_path { AreReads changes_x (reads (whole d_row x_row) 2) }
    ensures of_a_gap { AreReads makes_x (reads (gap d_row) 1) }
    ensures flagged { ¬ AreReads changes_x (reads (whole (flagged_by 1 d_row) x_row) 2) }
    ensures own_flag { AreReads (record changes_x { own = Some (operation 1) })
        (reads (whole (flagged_by 1 d_row) x_row) 2) }
    ensures no_place { ¬ AreReads changes_x (record { places = []; marks = []; quotas = [] }) }
{}

/// What is compared of a row that is read again: its id, its kind, its writer, and whether it has a quota.
pub fn four_fields_are_compared()
    ensures the_rest { SameRow x_row
        (record x_row { len = 9; mode = 448; owner = ben; flag = Some (operation 1) }) }
    ensures id { ¬ SameRow x_row (with_id 7 x_row) }
    ensures kind { ¬ SameRow d_row (as_file d_row) }
    ensures writer { ¬ SameRow x_row (written_by 1 x_row) }
    ensures quota { ¬ SameRow d_row (with_quota d_row) }
{}

/// A locked row that is read again is taken over as it then is; any other stays as it was found.
#[tactic(auto, unfolding(hops_base::specs::Key::key_cmp))]
pub fn locked_rows_are_read_again()
    ensures taken_over { IsReadAgain (rows d_row (with_mode 448 x_row)) (alone x_key)
        (x_key, x_row) (x_key, with_mode 448 x_row) }
    ensures left { ¬ IsReadAgain (rows d_row (with_mode 448 x_row)) (alone x_key)
        (x_key, x_row) (x_key, x_row) }
    ensures another_writer { ¬ IsReadAgain (rows d_row (written_by 1 x_row)) (alone x_key)
        (x_key, x_row) (x_key, written_by 1 x_row) }
    ensures not_locked { IsReadAgain (rows (with_mode 448 d_row) x_row) (alone x_key)
        (d_key, d_row) (d_key, d_row) }
    ensures not_locked_but_taken { ¬ IsReadAgain (rows (with_mode 448 d_row) x_row) (alone x_key)
        (d_key, d_row) (d_key, with_mode 448 d_row) }
{}

/// A place is read again only where nothing has come to its missing name, and no flag to its rows.
#[tactic(auto, unfolding(hops_base::specs::Key::key_cmp))]
pub fn places_are_read_again()
    ensures there { ¬ IsPlaceRead (rows d_row x_row) (alone d_key) None (gap d_row) (gap d_row) }
    ensures flagged { ¬ IsPlaceRead (rows_to (flagged_by 1 d_row)) (alone d_key) None
        (gap d_row) (gap (flagged_by 1 d_row)) }
    ensures marks { last_marks (whole d_row x_row ∷ gap d_row ∷ []) ≡ 2 ∷ 1 ∷ [] }
{}

/// Rows lead on by name, each under the directory before it.
pub fn rows_lead_on()
    ensures on_the_way { LeadsTo root_row d_x ((d_key, d_row) ∷ []) d_row (codes "x" ∷ []) }
    ensures too_soon { ¬ LeadsTo root_row d_x ((d_key, d_row) ∷ []) d_row [] }
    ensures below_a_file { ¬ LeadsTo root_row d_x
        ((d_key, as_file d_row) ∷ (x_key, x_row) ∷ []) x_row [] }
    ensures elsewhere { ¬ LeadsTo root_row d_x
        ((d_key, with_id 7 d_row) ∷ (x_key, x_row) ∷ []) x_row [] }
{}

/// A session holds a plan by locks of its own, and Exclusive what the plan locks so.
#[tactic(auto, unfolding(hops_base::specs::Key::key_cmp))]
pub fn plans_are_held()
    ensures exclusive { HoldsAll (held_by 1 (alone d_key)) (session 1) (alone d_key) }
    ensures more_than_shared { HoldsAll (held_by 1 (alone d_key)) (session 1) (shared d_key) }
    ensures shared { HoldsAll (held_by 1 (shared d_key)) (session 1) (shared d_key) }
    ensures shared_only { ¬ HoldsAll (held_by 1 (shared d_key)) (session 1) (alone d_key) }
    ensures by_another { ¬ HoldsAll (held_by 2 (alone d_key)) (session 1) (alone d_key) }
    ensures another_key { ¬ HoldsAll (held_by 1 (alone x_key)) (session 1) (shared d_key) }
{}

/// The keys of a plan may be joined, where each is as it is locked.
#[tactic(auto, unfolding(hops_base::specs::Key::key_cmp))]
pub fn plans_are_joined()
    ensures joined { AreSameLocks (alone d_key) (shared d_key ++ alone d_key) }
    ensures shared_only { ¬ AreSameLocks (shared d_key) (shared d_key ++ alone d_key) }
    ensures one_left_out { ¬ AreSameLocks (alone d_key) (alone d_key ++ shared x_key) }
    ensures one_more { ¬ AreSameLocks (alone d_key ++ shared x_key) (alone d_key) }
{}

/// A session's own Gave and Did take its locks, and so does a Gone of its namenode.
pub fn notes_that_take_locks()
    ensures gave { ¬ Leaves (opens 1 0 1 0 ∷ []) (session 1) (gives 1) }
    ensures did { ¬ Leaves (opens 1 0 1 0 ∷ []) (session 1) (does 1 0 1 make yes) }
    ensures gone { ¬ Leaves (opens 1 0 1 0 ∷ []) (session 1) (stops 0) }
    ensures another_gave { Leaves (opens 1 0 1 0 ∷ []) (session 1) (gives 2) }
    ensures gone_elsewhere { Leaves (opens 1 0 1 0 ∷ []) (session 1) (stops 1) }
{}

/// Of the rows from a mark on, a commit may move the last alone.
pub fn rows_from_the_mark_on_are_fixed()
    ensures from_the_mark { ¬ AllFixed (Some d_row.id) (1 ∷ []) (whole d_row x_row ∷ []) }
    ensures above_the_mark { AllFixed (Some d_row.id) (2 ∷ []) (whole d_row x_row ∷ []) }
    ensures the_last { AllFixed (Some x_row.id) (1 ∷ []) (whole d_row x_row ∷ []) }
{}
