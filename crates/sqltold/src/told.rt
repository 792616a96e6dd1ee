//! A keeper over an open connection.
ghost use Rattle.std.specs.Prelude.{◌≡◌, false, None, option_map};

use crate::halt::{counted, ended, kept};
use crate::{commits, creates, reads, writes};
use projects::{Keeper, KeeperEnd, Name, Project, Step};
use sheet::Sheet;
use sqlite::{Alter, Connection};
use std::alloc::Global;

/// A keeper over an open connection to a store of tables. It tells nothing of its tables, and counts
/// each call that failed. Until `attach` has answered `Ok` every other call fails.
#[derive(Drop)]
pub struct SqlTold<S: Alter> {
    pub(crate) connection: Connection<S>,
    path: Option<Vec<u8>>,
    attached: bool,
    faults: u128,
}

impl<S: Alter> SqlTold<S> {
    /// The keeper over this connection, without a path and with no fault so far. It takes no memory.
    pub fn new(connection: Connection<S>) -> SqlTold<S>
        requires { connection.in_transaction ≡ false }
        ensures tables { ⟦<SqlTold<S> as Keeper>⟧.tables result ≡ None }
        ensures path { ⟦<SqlTold<S> as Keeper>⟧.keeper_path result ≡ None }
        ensures faults { ⟦<SqlTold<S> as Keeper>⟧.faults result ≡ 0 }
    {
        SqlTold {
            connection,
            path: None,
            attached: false,
            faults: 0,
        }
    }
}

impl<S: Alter> Keeper for SqlTold<S> {
    ghost tables = { λ _. None };

    ghost is_clean = { λ _. Unit {0} };

    ghost faults = { λ s. s.faults };

    ghost keeper_path = { λ s. option_map (λ p. p.items) s.path };

    fn attach(&mut self, alloc: Global, path: &str) -> Result<(), KeeperEnd> {
        let Ok(text) = Vec::from_slice(alloc, path.as_bytes()) else {
            return Err(KeeperEnd::NoMemory);
        };
        let answer = ended(writes::make_tables(&mut self.connection));
        self.path = kept(text, &answer);
        self.attached = answer.is_ok();
        counted(&mut self.faults, answer)
    }

    fn fetch(&mut self, alloc: Global, name: &Name) -> Result<Option<Project>, KeeperEnd> {
        let found = if self.attached {
            ended(reads::fetch(&mut self.connection, alloc, name.text()))
        } else {
            Err(KeeperEnd::Failed)
        };
        counted(&mut self.faults, found)
    }

    fn names(&mut self, alloc: Global) -> Result<Vec<Name>, KeeperEnd> {
        let listed = if self.attached {
            ended(reads::names(&mut self.connection, alloc))
        } else {
            Err(KeeperEnd::Failed)
        };
        counted(&mut self.faults, listed)
    }

    fn create(&mut self, _alloc: Global, name: &Name, sheet: Sheet) -> Result<bool, KeeperEnd> {
        let made = if self.attached {
            ended(creates::create(&mut self.connection, name.text(), sheet))
        } else {
            Err(KeeperEnd::Failed)
        };
        counted(&mut self.faults, made)
    }

    fn commit(&mut self, alloc: Global, name: &Name, step: &Step) -> Result<(), KeeperEnd> {
        let taken = if self.attached {
            ended(commits::commit(&mut self.connection, alloc, name.text(), step))
        } else {
            Err(KeeperEnd::Failed)
        };
        counted(&mut self.faults, taken)
    }
}
