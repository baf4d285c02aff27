//! One step of a resolution, and how a session takes it.

ghost use Rattle.std.specs.Prelude.{◌≡◌, ◌<◌, IfSome, length};
ghost use Rattle.hops_base.specs.Roomy.{Roomy};
ghost use Rattle.hops_base.specs.declared.key.Key.{Key};
ghost use Rattle.inode_table.specs.declared.inode.Inode.{Inode};
ghost use Rattle.db_state.specs.declared.view.Place.{Place};
ghost use Rattle.db_state.specs.declared.session.Stage.TheVariants.{Resolve};
ghost use Rattle.path_resolver.specs.Stepping.{flag_of, list_after, lists_for, taken, HasRoom};

use db_state::{FoundList, Place, PlaceList, Position, Stage, Trail};
use hops_base::{Key, OpId, Path};
use inode_table::Inode;
use row_locks::Plan;

/// The lists in which a session gathers what it finds for a path.
#[derive(Debug, Drop)]
pub struct Lists {
    pub places: PlaceList,
    pub found: FoundList,
}

/// What one look for a row gave: the row with its key, or its key where there is none.
#[derive(Debug, Drop)]
pub struct Look {
    pub row: Option<(Key, Inode)>,
    pub missing: Option<Key>,
}

/// With what a resolution ends.
#[derive(Debug, Drop)]
pub struct End {
    pub path: Path,
    pub plan: Plan,
    pub trail: Trail,
}

/// One step of a resolution, for which all memory is taken.
#[derive(Debug, Drop)]
pub struct Step {
    pub since: u64,
    pub reads: u64,
    /// New lists with the root's row, where nothing was found yet.
    pub begun: Option<Lists>,
    pub look: Look,
    /// None where more is to be read.
    pub end: Option<End>,
}

impl Step {
    /// The flag of the row that was read.
    pub fn flag(&self) -> Option<OpId>
        ensures { result ≡ flag_of self.now.look.row }
    {
        let (_, row) = self.look.row.as_ref()?;
        row.flag
    }

    /// How far a session is once it has taken the step. It takes no memory.
    pub fn take(self, position: Position) -> Position
        requires { HasRoom self position.stage }
        ensures { result ≡ taken self position }
    {
        let Step {
            since,
            reads,
            begun,
            look: Look { row, missing },
            end,
        } = self;
        let Lists {
            mut places,
            mut found,
        } = lists_for(begun, position.stage);
        push_row(&mut found, row);
        let Some(End { path, plan, trail }) = end else {
            return Position {
                since,
                reads,
                trail: position.trail,
                stage: Stage::Resolve(places, found),
            };
        };
        places.push(Place {
            path,
            found,
            missing,
            has_child: false,
        });
        Position {
            since,
            reads,
            trail,
            stage: Stage::Lock(places, plan, 0),
        }
    }
}

// The lists to which a step adds: the new ones, or those of the session.
fn lists_for(begun: Option<Lists>, stage: Stage) -> Lists
    requires { (places : Roomy Place) × (found : Roomy (Key × Inode)) × (stage ≡ Resolve places found) }
    ensures { result ≡ lists_for begun stage }
{
    let Stage::Resolve(places, found) = stage else {
        unreachable!()
    };
    begun.unwrap_or(Lists { places, found })
}

// Adds the row that was read, if one was.
fn push_row(found: &mut FoundList, row: Option<(Key, Inode)>)
    requires { IfSome row (λ row. length found.old.items < found.old.room) }
    ensures { found.new ≡ list_after found.old row }
{
    if let Some(row) = row {
        found.push(row);
    }
}
