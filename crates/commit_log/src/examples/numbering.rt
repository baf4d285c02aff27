//! Which inode ids a history gives to paths.

ghost use Rattle.std.specs.Prelude.{◌≡◌, true, false, [], ◌∷◌};
ghost use Rattle.commit_log.specs.Ids.{ids};
ghost use Rattle.commit_log.specs.Samples.{d, d_e, d_x, x, x_e, make, remove, move_away, yes, does, ann_makes, e_is_cut, ann_alone};
ghost use Rattle.commit_log.specs.WorkedRuns.{made_and_seen, a, a_b};
ghost use Rattle.name_space.specs.declared.call.Call.TheVariants.{Mkdirs, Create, Rename};
ghost use Rattle.name_space.specs.declared.reply.Exception.TheVariants.{IO};
ghost use Rattle.name_space.specs.declared.reply.Reply.TheVariants.{Refused};
ghost use Rattle.name_space.specs.declared.reply.Why.TheVariants.{Descendant};

/// The root has id 1, and new paths take the next ids, from the top on.
#[tactic(auto, unfolding(crate::specs::Ids::ids))]
pub fn new_paths_take_the_next_ids()
    ensures ids { (ids ann_alone made_and_seen.notes).ids ≡ ([], 1) ∷ (a, 2) ∷ (a_b, 3) ∷ [] }
    ensures next { (ids ann_alone made_and_seen.notes).next ≡ 4 }
{}

/// What moves keeps its id, and so does all below; into a directory too.
#[tactic(auto, unfolding(crate::specs::Ids::ids))]
pub fn ids_move_along()
    ensures whole { (ids ann_alone (ann_makes ∷ does 2 0 2 move_away yes ∷ [])).ids ≡ ([], 1) ∷ (x, 2) ∷ (x_e, 3) ∷ [] }
    ensures into { (ids ann_alone (ann_makes ∷ does 2 0 2 (Mkdirs x) yes ∷ does 3 0 3 (Rename x d) yes ∷ [])).ids ≡ ([], 1) ∷ (d, 2) ∷ (d_e, 3) ∷ (d_x, 4) ∷ [] }
    ensures refused { (ids ann_alone (ann_makes ∷ does 2 0 2 (Rename d d_e) (Refused (IO Descendant)) ∷ [])).ids ≡ ([], 1) ∷ (d, 2) ∷ (d_e, 3) ∷ [] }
    ensures onto_itself { (ids ann_alone (ann_makes ∷ does 2 0 2 (Rename d_e d) yes ∷ [])).ids ≡ ([], 1) ∷ (d, 2) ∷ (d_e, 3) ∷ [] }
{}

/// No id is given twice: what is made anew takes a new one. A file that stands in an old one's place keeps its id.
#[tactic(auto, unfolding(crate::specs::Ids::ids))]
pub fn ids_are_never_given_again()
    ensures made_anew { (ids ann_alone (ann_makes ∷ does 2 0 2 remove yes ∷ does 3 0 3 make yes ∷ [])).ids ≡ ([], 1) ∷ (d, 4) ∷ (d_e, 5) ∷ [] }
    ensures after_a_cut { (ids ann_alone (ann_makes ∷ e_is_cut ∷ does 2 0 2 make yes ∷ [])).ids ≡ ([], 1) ∷ (d, 2) ∷ (d_e, 4) ∷ [] }
    ensures overwritten { (ids ann_alone (does 1 0 1 (Create d false) yes ∷ does 2 0 2 (Create d true) yes ∷ [])).ids ≡ ([], 1) ∷ (d, 2) ∷ [] }
{}
