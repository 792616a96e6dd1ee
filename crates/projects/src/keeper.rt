//! What keeps projects under their names.
ghost use Rattle.std.specs.Prelude.{◌≡◌, ℕ, List, Option, Some, None, IfOk, OnErr, IsSome};
ghost use Rattle.projects.specs.Tables.{Tables, project_at, names_of, Created, CanCommit, Committed};
ghost use Rattle.projects.specs.Keeping.{Tells, FailsWhereRose, path_after};

use crate::{Name, Project, Step};
use ports::NoMemory;
use sheet::Sheet;
use std::alloc::Global;

/// Why a keeper's call gave no answer.
#[derive(Clone, Copy, Debug, PartialEq, Eq)]
pub enum KeeperEnd {
    /// The keeper's count of faults rose.
    Failed,
    /// There was no memory.
    NoMemory,
}

impl From<NoMemory> for KeeperEnd {
    ghost use Rattle.std.specs.Prelude.{◌≡◌};
    ghost use Rattle.projects.specs.declared.keeper.KeeperEnd.TheVariants as end;

    ghost from_gives = { λ _ e. e ≡ end.NoMemory };

    fn from(_: NoMemory) -> Self {
        KeeperEnd::NoMemory
    }
}

/// What keeps projects under their names. It may tell its tables, and its store may be damaged: what
/// a call says of told tables holds where the store is clean as the call ends. After every call that
/// answers `Failed` or `NoMemory` told tables are as before.
pub trait Keeper {
    /// The tables, where the keeper tells them.
    ghost tables: { Self → Option Tables };

    /// Its store is not damaged.
    ghost is_clean: { Self → Type 0 };

    /// How many calls have failed.
    ghost faults: { Self → ℕ };

    /// The text that was given to `attach`, if any was.
    ghost keeper_path: { Self → Option (List ℕ) };

    /// Says where the tables are kept. It is called until it has answered `Ok` or `Failed` once.
    fn attach(&mut self, alloc: Global, path: &str) -> Result<(), KeeperEnd>
        requires { keeper_path self.old ≡ None }
        ensures told { Tells (tables self.old) (is_clean self.new) (tables self.new)
            (λ before after. after ≡ before) }
        ensures untold { OnErr result
            (IsSome (tables self.new) → is_clean self.new → IsSome (tables self.old)) }
        ensures clean { is_clean self.new → is_clean self.old }
        ensures cause { FailsWhereRose (faults self.old) (faults self.new) result }
        ensures path { keeper_path self.new ≡ path_after path.now result };

    /// A copy of the project under this name, or None exactly where there is none.
    fn fetch(&mut self, alloc: Global, name: &Name) -> Result<Option<Project>, KeeperEnd>
        ensures told { Tells (tables self.old) (is_clean self.new) (tables self.new)
            (λ before after. (after ≡ before) × IfOk result (λ found. found ≡ project_at before name.now)) }
        ensures untold { IsSome (tables self.new) → is_clean self.new → IsSome (tables self.old) }
        ensures clean { is_clean self.new → is_clean self.old }
        ensures cause { FailsWhereRose (faults self.old) (faults self.new) result }
        ensures path { keeper_path self.new ≡ keeper_path self.old };

    /// All names, ascending.
    fn names(&mut self, alloc: Global) -> Result<Vec<Name>, KeeperEnd>
        ensures told { Tells (tables self.old) (is_clean self.new) (tables self.new)
            (λ before after. (after ≡ before) × IfOk result (λ names. names.items ≡ names_of before)) }
        ensures untold { IsSome (tables self.new) → is_clean self.new → IsSome (tables self.old) }
        ensures clean { is_clean self.new → is_clean self.old }
        ensures cause { FailsWhereRose (faults self.old) (faults self.new) result }
        ensures path { keeper_path self.new ≡ keeper_path self.old };

    /// Puts an empty project on this sheet at rev 0 under a new name. It answers false, and changes
    /// nothing, exactly where the name is there.
    fn create(&mut self, alloc: Global, name: &Name, sheet: Sheet) -> Result<bool, KeeperEnd>
        ensures told { Tells (tables self.old) (is_clean self.new) (tables self.new)
            (λ before after. Created before name.now sheet result after) }
        ensures clean { is_clean self.new → is_clean self.old }
        ensures cause { FailsWhereRose (faults self.old) (faults self.new) result }
        ensures path { keeper_path self.new ≡ keeper_path self.old };

    /// Takes a step of the project under this name. A keeper that tells no tables, or whose store is
    /// damaged, counts a fault where it finds that the step does not fit.
    fn commit(&mut self, alloc: Global, name: &Name, step: &Step) -> Result<(), KeeperEnd>
        requires { (before : Tables) → tables self.old ≡ Some before → is_clean self.old
            → CanCommit before name.now step.now }
        ensures told { Tells (tables self.old) (is_clean self.new) (tables self.new)
            (λ before after. Committed before name.now step.now result after) }
        ensures clean { is_clean self.new → is_clean self.old }
        ensures cause { FailsWhereRose (faults self.old) (faults self.new) result }
        ensures path { keeper_path self.new ≡ keeper_path self.old };
}
