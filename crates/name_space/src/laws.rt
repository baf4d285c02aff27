//! The laws of the plain namespace and its calls.

ghost use Rattle.name_space.specs.Laws.{RefusalsChangeNothing, LookingChangesNothing, OpeningIsANamespace, PlainKeepsANamespace, CallsKeepANamespace, CutGivesANamespace, UsageIsASum, RenameMovesAll, AQuotaIsKept};

/// A call that is refused changes nothing.
pub fn refusals_change_nothing()
    ensures { RefusalsChangeNothing }
{}

/// A call that only looks changes nothing.
pub fn looking_changes_nothing()
    ensures { LookingChangesNothing }
{}

/// Before any call there is a namespace.
pub fn opening_is_a_namespace()
    ensures { OpeningIsANamespace }
{}

/// After any call whose paths consist of names, a namespace is one: the root and what stands above every other path is a
/// directory, and no path stands twice.
pub fn plain_keeps_a_namespace()
    ensures { PlainKeepsANamespace }
{}

/// After any number of such calls a namespace is one.
pub fn calls_keep_a_namespace()
    ensures { CallsKeepANamespace }
{}

/// What a cut leaves of a namespace is one.
pub fn cut_gives_a_namespace()
    ensures { CutGivesANamespace }
{}

/// What a path uses is what stands there itself and what each of its children uses, in names and in bytes.
pub fn usage_is_a_sum()
    ensures { UsageIsASum }
{}

/// A granted rename moves all that stands within the source to a target that was free, and leaves all else; a rename onto
/// itself apart.
pub fn rename_moves_all()
    ensures { RenameMovesAll }
{}

/// No call takes a directory past a quota of its own, in names or in bytes: what it uses after the call is within the quota,
/// or no more than before.
pub fn a_quota_is_kept()
    ensures { AQuotaIsKept }
{}
