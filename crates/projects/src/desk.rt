//! What answers the commands of a designer.
ghost use Rattle.std.specs.Prelude.{◌≡◌, IsSome};
ghost use Rattle.dialogue.specs.declared.command.Command.TheVariants as command;
ghost use Rattle.projects.specs.Keeping.{Tells};
ghost use Rattle.projects.specs.Desk.{Replies, RepliesWhereRose, Does, EndsWhereRose, Fetched};
ghost use Rattle.projects.specs.Desk.{FetchesWhereRose};

use crate::changes::step_of;
use crate::early::Early;
use crate::questions::{cp_written, faults, fold_written, reported, shown, written};
use crate::{Keeper, Project};
use dialogue::{Cause, Change, Command, Reply};
use ports::{Listed, NoMemory};
use sheet::Sheet;
use std::alloc::Global;
use subdivide::Live;
use vocabulary::Name;

/// What answers commands, one after another. It keeps the last pattern that was cut for a change,
/// so that the next change of it does not cut it again. No reply depends on what is kept.
#[derive(Drop)]
pub struct Desk {
    kept: Option<Live>,
}

impl Desk {
    /// A desk that keeps nothing yet.
    ///
    /// # Errors
    ///
    /// `NoMemory` where memory for what it keeps runs out.
    pub fn new(_alloc: Global) -> Result<Desk, NoMemory> {
        Ok(Desk { kept: None })
    }

    /// The reply to a command, over the tables of a keeper. It is `Refused` with the first rule that
    /// is broken; then, and where a question is answered, nothing is changed. It is `KeeperFailed`,
    /// and nothing is changed, where a call of the keeper fails: its count of faults rose. The last
    /// call of the keeper is the one that changes its tables, and no memory is taken after it.
    ///
    /// # Errors
    ///
    /// `NoMemory` where memory runs out. Then nothing is changed.
    pub fn act<K: Keeper>(
        &mut self,
        alloc: Global,
        keeper: &mut K,
        command: &Command,
    ) -> Result<Reply, NoMemory>
        ensures told { Tells (K.tables keeper.old) (K.is_clean keeper.new) (K.tables keeper.new)
            (λ before after. Replies before command.now result after) }
        ensures clean { K.is_clean keeper.new → K.is_clean keeper.old }
        ensures cause { RepliesWhereRose (K.faults keeper.old) (K.faults keeper.new) result }
        ensures path { K.keeper_path keeper.new ≡ K.keeper_path keeper.old }
    {
        match answer(alloc, &mut self.kept, keeper, command) {
            Ok(reply) => Ok(reply),
            Err(Early::Refused(cause)) => Ok(Reply::Refused(cause)),
            Err(Early::KeeperFailed) => Ok(Reply::KeeperFailed),
            Err(Early::NoMemory) => Err(NoMemory),
        }
    }
}

/// The reply to a command, or why it ends before it is done.
fn answer<K: Keeper>(
    alloc: Global,
    kept: &mut Option<Live>,
    keeper: &mut K,
    command: &Command,
) -> Result<Reply, Early>
    ensures told { Tells (K.tables keeper.old) (K.is_clean keeper.new) (K.tables keeper.new)
        (λ before after. Does before command.now result after) }
    ensures clean { K.is_clean keeper.new → K.is_clean keeper.old }
    ensures cause { EndsWhereRose (K.faults keeper.old) (K.faults keeper.new) result }
    ensures path { K.keeper_path keeper.new ≡ K.keeper_path keeper.old }
{
    match command {
        Command::New { name, sheet } => create_project(alloc, keeper, name, *sheet),
        Command::List => list_projects(alloc, keeper),
        Command::Show { name } => shown(alloc, fetch_project(alloc, keeper, name)?),
        Command::Faults { name } => faults(alloc, fetch_project(alloc, keeper, name)?),
        Command::Vertex { name, at } => reported(alloc, fetch_project(alloc, keeper, name)?, at),
        Command::PatternText { name } => written(alloc, &fetch_project(alloc, keeper, name)?),
        Command::CpText { name } => cp_written(alloc, fetch_project(alloc, keeper, name)?),
        Command::FoldText { name } => fold_written(alloc, fetch_project(alloc, keeper, name)?),
        Command::Change { name, rev, change } => {
            change_project(alloc, kept, keeper, name, *rev, change)
        }
    }
}

/// The project under a name.
fn fetch_project<K: Keeper>(alloc: Global, keeper: &mut K, name: &Name) -> Result<Project, Early>
    ensures told { Tells (K.tables keeper.old) (K.is_clean keeper.new) (K.tables keeper.new)
        (λ before after. (after ≡ before) × Fetched before name.now result) }
    ensures untold { IsSome (K.tables keeper.new) → K.is_clean keeper.new → IsSome (K.tables keeper.old) }
    ensures clean { K.is_clean keeper.new → K.is_clean keeper.old }
    ensures cause { FetchesWhereRose (K.faults keeper.old) (K.faults keeper.new) result }
    ensures path { K.keeper_path keeper.new ≡ K.keeper_path keeper.old }
{
    match keeper.fetch(alloc, name)? {
        Some(project) => Ok(project),
        None => Err(Early::Refused(Cause::NoProject)),
    }
}

/// A new project.
fn create_project<K: Keeper>(
    alloc: Global,
    keeper: &mut K,
    name: &Name,
    sheet: Sheet,
) -> Result<Reply, Early>
    ensures told { Tells (K.tables keeper.old) (K.is_clean keeper.new) (K.tables keeper.new)
        (λ before after. Does before (command.New name.now sheet) result after) }
    ensures clean { K.is_clean keeper.new → K.is_clean keeper.old }
    ensures cause { EndsWhereRose (K.faults keeper.old) (K.faults keeper.new) result }
    ensures path { K.keeper_path keeper.new ≡ K.keeper_path keeper.old }
{
    if keeper.create(alloc, name, sheet)? {
        Ok(Reply::Done { rev: 0 })
    } else {
        Err(Early::Refused(Cause::Exists))
    }
}

/// The names of all projects.
fn list_projects<K: Keeper>(alloc: Global, keeper: &mut K) -> Result<Reply, Early>
    ensures told { Tells (K.tables keeper.old) (K.is_clean keeper.new) (K.tables keeper.new)
        (λ before after. Does before command.List result after) }
    ensures clean { K.is_clean keeper.new → K.is_clean keeper.old }
    ensures cause { EndsWhereRose (K.faults keeper.old) (K.faults keeper.new) result }
    ensures path { K.keeper_path keeper.new ≡ K.keeper_path keeper.old }
{
    Ok(Reply::Names(Listed::new(keeper.names(alloc)?)))
}

/// A change of a project. After it the new pattern is kept.
fn change_project<K: Keeper>(
    alloc: Global,
    kept: &mut Option<Live>,
    keeper: &mut K,
    name: &Name,
    given: Option<u64>,
    change: &Change,
) -> Result<Reply, Early>
    ensures told { Tells (K.tables keeper.old) (K.is_clean keeper.new) (K.tables keeper.new)
        (λ before after. Does before (command.Change name.now given change.now) result after) }
    ensures clean { K.is_clean keeper.new → K.is_clean keeper.old }
    ensures cause { EndsWhereRose (K.faults keeper.old) (K.faults keeper.new) result }
    ensures path { K.keeper_path keeper.new ≡ K.keeper_path keeper.old }
{
    let project = fetch_project(alloc, keeper, name)?;
    let ready = step_of(alloc, kept, project, given, change)?;
    keeper.commit(alloc, name, &ready.step)?;
    *kept = Some(ready.next);
    Ok(ready.reply)
}
