//! A keeper in memory, with calls that fail at numbers of choice.
ghost use Rattle.std.specs.Prelude.{◌≡◌, ◌≢◌, [], Some, None, Err, IfOk, OnOk, OnErr};
ghost use Rattle.projects.specs.Tables.{IsTables, project_at, names_of, with_project, Created, CanCommit};
ghost use Rattle.projects.specs.Tables.{Committed};
ghost use Rattle.projects.specs.Keeping.{FailsWhereRose, path_after};
ghost use Rattle.projects.specs.Memory.{FailsByNumber, CountsOther, CountsCommit, IsUntouched};

use crate::tables::{names_in, project_in, put_project, take_step};
use crate::{Keeper, KeeperEnd, Name, Project, Step};
use ports::{Calls, NoMemory};
use sheet::Sheet;
use std::alloc::Global;
use std::collections::BTreeMap;
use std::marker::Model;

/// A keeper in memory. It tells its tables, and its store is always clean.
#[derive(Drop)]
pub struct MemKeeper {
    tables: BTreeMap<Name, Project>,
    path: Option<Vec<u8>>,
    commits: Calls,
    others: Calls,
    faults: u128,
}

impl Model for MemKeeper {
    ghost use Rattle.std.specs.Prelude.{option_map};
    ghost use Rattle.projects.specs.Memory.{KeeperState};
    ghost use Rattle.projects.specs.Tables.{IsTables};

    ghost Value = { KeeperState };

    ghost view = { λ s. record {
      tables = s.tables.entries;
      path = option_map (λ p. p.items) s.path;
      fail_commits = s.commits.fail;
      fail_others = s.others.fail;
      commits = s.commits.made;
      others = s.others.made;
      faults = s.faults;
    } };

    ghost invariant = { λ s. IsTables s.tables.entries };
}

impl MemKeeper {
    /// A keeper without projects. Exactly the commits whose numbers are in `fail_commits` fail, and
    /// the other calls whose numbers are in `fail_others`, each counted from 1.
    pub fn new(alloc: Global, fail_commits: Vec<u64>, fail_others: Vec<u64>) -> MemKeeper
        ensures { result ≡ record {
          tables = [];
          path = None;
          fail_commits = fail_commits.items;
          fail_others = fail_others.items;
          commits = 0;
          others = 0;
          faults = 0;
        } }
    {
        MemKeeper {
            tables: BTreeMap::new(alloc),
            path: None,
            commits: Calls::new(fail_commits),
            others: Calls::new(fail_others),
            faults: 0,
        }
    }

    /// Puts a project under a name, in place of one that is there. It is no call of a keeper, and is
    /// not counted.
    ///
    /// # Errors
    ///
    /// `NoMemory` where memory for the tables runs out. Then the keeper is as it was.
    pub fn hold(&mut self, name: Name, project: Project) -> Result<(), NoMemory>
        ensures ok { OnOk result
            (self.new ≡ record self.old { tables = with_project self.old.tables name project }) }
        ensures err { OnErr result (self.new ≡ self.old) }
    {
        put_project(&mut self.tables, name, project)
    }

    /// Counts a call that is no commit, and fails where its number says so.
    fn count_other(&mut self) -> Result<(), KeeperEnd>
        ensures tables { IsTables self.new.tables }
        ensures untouched { IsUntouched self.old self.new }
        ensures cause { FailsWhereRose self.old.faults self.new.faults result }
        ensures counts { CountsOther self.old self.new }
        ensures numbers { FailsByNumber self.old.fail_others self.old.others self.old.faults self.new.faults result }
        ensures memory { result ≢ Err KeeperEnd.NoMemory }
    {
        if self.others.next_fails() {
            self.faults = self.faults.saturating_add(1);
            return Err(KeeperEnd::Failed);
        }
        Ok(())
    }

    /// Counts a commit, and fails where its number says so.
    fn count_commit(&mut self) -> Result<(), KeeperEnd>
        ensures tables { IsTables self.new.tables }
        ensures untouched { IsUntouched self.old self.new }
        ensures cause { FailsWhereRose self.old.faults self.new.faults result }
        ensures counts { CountsCommit self.old self.new }
        ensures numbers { FailsByNumber self.old.fail_commits self.old.commits self.old.faults self.new.faults result }
    {
        if self.commits.next_fails() {
            self.faults = self.faults.saturating_add(1);
            return Err(KeeperEnd::Failed);
        }
        Ok(())
    }
}

impl Keeper for MemKeeper {
    ghost tables = { λ s. Some s.tables };

    ghost is_clean = { λ _. Unit {0} };

    ghost faults = { λ s. s.faults };

    ghost keeper_path = { λ s. s.path };

    fn attach(&mut self, alloc: Global, path: &str) -> Result<(), KeeperEnd>
        requires { self.old.path ≡ None }
        ensures is { IsTables self.old.tables }
        ensures stay { self.new.tables ≡ self.old.tables }
        ensures path { self.new.path ≡ path_after path.now result }
        ensures cause { FailsWhereRose self.old.faults self.new.faults result }
        ensures counts { CountsOther self.old self.new }
        ensures numbers { FailsByNumber self.old.fail_others self.old.others self.old.faults self.new.faults result }
    {
        let Ok(text) = Vec::from_slice(alloc, path.as_bytes()) else {
            let _fails = self.others.next_fails();
            return Err(KeeperEnd::NoMemory);
        };
        self.path = Some(text);
        self.count_other()
    }

    fn fetch(&mut self, alloc: Global, name: &Name) -> Result<Option<Project>, KeeperEnd>
        ensures is { IsTables self.old.tables }
        ensures stay { IsUntouched self.old self.new }
        ensures found { IfOk result (λ found. found ≡ project_at self.old.tables name.now) }
        ensures cause { FailsWhereRose self.old.faults self.new.faults result }
        ensures counts { CountsOther self.old self.new }
        ensures numbers { FailsByNumber self.old.fail_others self.old.others self.old.faults self.new.faults result }
    {
        self.count_other()?;
        Ok(project_in(alloc, &self.tables, name)?)
    }

    fn names(&mut self, alloc: Global) -> Result<Vec<Name>, KeeperEnd>
        ensures is { IsTables self.old.tables }
        ensures stay { IsUntouched self.old self.new }
        ensures names { IfOk result (λ names. names.items ≡ names_of self.old.tables) }
        ensures cause { FailsWhereRose self.old.faults self.new.faults result }
        ensures counts { CountsOther self.old self.new }
        ensures numbers { FailsByNumber self.old.fail_others self.old.others self.old.faults self.new.faults result }
    {
        self.count_other()?;
        Ok(names_in(alloc, &self.tables)?)
    }

    fn create(&mut self, alloc: Global, name: &Name, sheet: Sheet) -> Result<bool, KeeperEnd>
        ensures old { IsTables self.old.tables }
        ensures new { IsTables self.new.tables }
        ensures created { Created self.old.tables name.now sheet result self.new.tables }
        ensures path { self.new.path ≡ self.old.path }
        ensures cause { FailsWhereRose self.old.faults self.new.faults result }
        ensures counts { CountsOther self.old self.new }
        ensures numbers { FailsByNumber self.old.fail_others self.old.others self.old.faults self.new.faults result }
    {
        self.count_other()?;
        if self.tables.contains_key(name) {
            return Ok(false);
        }
        put_project(&mut self.tables, name.copy(), Project::empty(alloc, sheet))?;
        Ok(true)
    }

    fn commit(&mut self, alloc: Global, name: &Name, step: &Step) -> Result<(), KeeperEnd>
        requires { CanCommit self.old.tables name.now step.now }
        ensures old { IsTables self.old.tables }
        ensures new { IsTables self.new.tables }
        ensures committed { Committed self.old.tables name.now step.now result self.new.tables }
        ensures path { self.new.path ≡ self.old.path }
        ensures cause { FailsWhereRose self.old.faults self.new.faults result }
        ensures counts { CountsCommit self.old self.new }
        ensures numbers { FailsByNumber self.old.fail_commits self.old.commits self.old.faults self.new.faults result }
    {
        self.count_commit()?;
        Ok(take_step(alloc, &mut self.tables, name, step)?)
    }
}
