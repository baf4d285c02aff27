//! Worked examples of commits that keep the rows which other sessions have read, and of commits that don't.

ghost use Rattle.std.specs.Prelude.{codes};
ghost use Rattle.std.specs.FinMap as map;
ghost use Rattle.inode_ops.specs.ChmodSteps.{row_with_mode};
ghost use Rattle.inode_ops.specs.Examples.{child, dir, file, as_dir, with_quota, d, d_f, d_q, d_q_g, e_in, putting, without, moving, IsKept, IsKeptWith};

/// A row may change in all but its id and its kind, and it gets no quota. A row of a new id may take its place.
pub fn rows_change_in_place()
    ensures mode { IsKept (putting d (row_with_mode 448 (dir 2))) }
    ensures quota_stays { IsKept (putting d_q (row_with_mode 448 (with_quota (dir 5)))) }
    ensures quota_goes { IsKept (putting d_q (dir 5)) }
    ensures new_id { IsKept (putting d_f (file 6)) }
    ensures given_id { ¬ IsKept (putting d_f (file 5)) }
    ensures kind { ¬ IsKept (putting d_f (as_dir (file 3))) }
    ensures quota_comes { ¬ IsKept (putting d (with_quota (dir 2))) }
{}

/// A row of a new id comes into a directory whose key is locked alone, or which is new itself.
pub fn rows_come_into_owned_directories()
    ensures owned { IsKept (putting (e_in 2) (dir 6)) }
    ensures below_new { IsKept (map.insert (putting (e_in 2) (dir 6)) (child 6 (codes "f")) (file 7)) }
    ensures given_id { ¬ IsKept (putting (e_in 2) (file 5)) }
    ensures shared { ¬ IsKept (putting (e_in 1) (dir 6)) }
    ensures unlocked { ¬ IsKept (putting (e_in 5) (dir 6)) }
{}

/// A row goes from a directory whose key is locked alone.
pub fn rows_go_from_owned_directories()
    ensures owned { IsKept (without d_f) }
    ensures shared { ¬ IsKept (without d) }
    ensures unlocked { ¬ IsKept (without d_q_g) }
{}

/// The one row that a commit moves goes from one directory whose key is locked alone to another; it may get a quota.
pub fn one_row_may_move()
    ensures moves { IsKeptWith 3 (moving d_f (e_in 2) (file 3)) }
    ensures moves_none { ¬ IsKept (moving d_f (e_in 2) (file 3)) }
    ensures moves_another { ¬ IsKeptWith 5 (moving d_f (e_in 2) (file 3)) }
    ensures into_shared { ¬ IsKeptWith 3 (moving d_f (e_in 1) (file 3)) }
    ensures from_unlocked { ¬ IsKeptWith 4 (moving d_q_g (e_in 2) (file 4)) }
    ensures quota { IsKeptWith 2 (putting d (with_quota (dir 2))) }
    ensures quota_of_another { ¬ IsKeptWith 3 (putting d (with_quota (dir 2))) }
{}
