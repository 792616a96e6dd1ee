//! A keeper over a file.
ghost use Rattle.std.specs.Prelude.{◌≡◌, None, option_map};

use crate::SqlTold;
use crate::halt::{Halt, counted, kept};
use projects::{Keeper, KeeperEnd, Name, Project, Step};
use sheet::Sheet;
use sqlite::{Connection, File, FileStore};
use std::alloc::Global;

/// A keeper over a file. `attach` opens the file and adopts it. Until then, and after an `attach`
/// that failed, each other call fails. It tells nothing of its tables, and counts each call that
/// failed.
#[derive(Drop)]
pub struct SqlKeeper<'a> {
    rt: &'a HostRuntime,
    path: Option<Vec<u8>>,
    told: Option<SqlTold<FileStore<File>>>,
    faults: u128,
}

impl<'a> SqlKeeper<'a> {
    /// The keeper that has adopted no file, without a path and with no fault so far. It takes no
    /// memory.
    pub fn new(rt: &'a HostRuntime) -> SqlKeeper<'a>
        ensures tables { ⟦<SqlKeeper<'a> as Keeper>⟧.tables result ≡ None }
        ensures path { ⟦<SqlKeeper<'a> as Keeper>⟧.keeper_path result ≡ None }
        ensures faults { ⟦<SqlKeeper<'a> as Keeper>⟧.faults result ≡ 0 }
    {
        SqlKeeper {
            rt,
            path: None,
            told: None,
            faults: 0,
        }
    }
}

/// The keeper over the file at a path, with its tables.
fn adopted(
    rt: &HostRuntime,
    alloc: Global,
    path: &str,
) -> Result<SqlTold<FileStore<File>>, KeeperEnd> {
    let mut told = match Connection::open(rt, path) {
        Ok(connection) => SqlTold::new(connection),
        Err(error) => return Err(KeeperEnd::from(Halt::from(error))),
    };
    told.attach(alloc, path)?;
    Ok(told)
}

impl<'a> Keeper for SqlKeeper<'a> {
    ghost tables = { λ _. None };

    ghost is_clean = { λ _. Unit {0} };

    ghost faults = { λ s. s.faults };

    ghost keeper_path = { λ s. option_map (λ p. p.items) s.path };

    fn attach(&mut self, alloc: Global, path: &str) -> Result<(), KeeperEnd> {
        let Ok(text) = Vec::from_slice(alloc, path.as_bytes()) else {
            return Err(KeeperEnd::NoMemory);
        };
        let answer = match adopted(self.rt, alloc, path) {
            Ok(told) => {
                self.told = Some(told);
                Ok(())
            }
            Err(end) => Err(end),
        };
        self.path = kept(text, &answer);
        counted(&mut self.faults, answer)
    }

    fn fetch(&mut self, alloc: Global, name: &Name) -> Result<Option<Project>, KeeperEnd> {
        let found = match &mut self.told {
            Some(told) => told.fetch(alloc, name),
            None => Err(KeeperEnd::Failed),
        };
        counted(&mut self.faults, found)
    }

    fn names(&mut self, alloc: Global) -> Result<Vec<Name>, KeeperEnd> {
        let listed = match &mut self.told {
            Some(told) => told.names(alloc),
            None => Err(KeeperEnd::Failed),
        };
        counted(&mut self.faults, listed)
    }

    fn create(&mut self, alloc: Global, name: &Name, sheet: Sheet) -> Result<bool, KeeperEnd> {
        let made = match &mut self.told {
            Some(told) => told.create(alloc, name, sheet),
            None => Err(KeeperEnd::Failed),
        };
        counted(&mut self.faults, made)
    }

    fn commit(&mut self, alloc: Global, name: &Name, step: &Step) -> Result<(), KeeperEnd> {
        let taken = match &mut self.told {
            Some(told) => told.commit(alloc, name, step),
            None => Err(KeeperEnd::Failed),
        };
        counted(&mut self.faults, taken)
    }
}
