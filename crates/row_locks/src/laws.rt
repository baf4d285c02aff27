//! Laws of locks and of plans: no two locks ever clash, and each question has one answer.

ghost use Rattle.std.specs.Prelude.{◌≡◌, List, Option};
ghost use Rattle.std.specs.FinMap as map;
ghost use Rattle.hops_base.specs.declared.ids.Mode.{Mode};
ghost use Rattle.hops_base.specs.declared.ids.SessionId.{SessionId};
ghost use Rattle.hops_base.specs.declared.key.Key.{Key};
ghost use Rattle.row_locks.specs.declared.ask.Ask.{Ask};
ghost use Rattle.row_locks.specs.Locks.{Locks, AreApart, IsAsked, IsConflict, IsGivenBack};
ghost use Rattle.row_locks.specs.Plans.{IsPlan};

/// No two sessions ever hold a key in modes that conflict: none do in an empty table, and whatever is asked
/// for or given back, none do after it.
pub fn locks_never_clash()
    ensures none { AreApart map.empty }
    ensures asked { (old new : Locks) (s : SessionId) (key : Key) (mode : Mode) (answer : Ask)
        → IsAsked old s key mode answer new → AreApart old → AreApart new }
    ensures given_back { (s : SessionId) (old new : Locks) → IsGivenBack s old new → AreApart old → AreApart new }
{}

/// Who is in the way, what is left when locks are given back, and the plan for what is wanted are each one.
pub fn each_answer_is_the_only_one()
    ensures conflict { (locks : Locks) (s : SessionId) (key : Key) (mode : Mode) (answer other : Option SessionId)
        → IsConflict locks s key mode answer → IsConflict locks s key mode other → answer ≡ other }
    ensures given_back { (s : SessionId) (old new other : Locks) → IsGivenBack s old new → IsGivenBack s old other → new ≡ other }
    ensures plan { (wanted plan other : List (Key × Mode)) → IsPlan wanted plan → IsPlan wanted other → plan ≡ other }
{}
