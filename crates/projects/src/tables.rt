//! Tables in memory: what is read from a map of names, and what is put into it.
ghost use Rattle.std.specs.Prelude.{◌≡◌, IfOk, OnOk, OnErr};
ghost use Rattle.projects.specs.Tables.{IsTables, names_of, project_at, with_project, CanCommit, IsCommitted};

use crate::{Name, Project, Step};
use ports::NoMemory;
use std::alloc::Global;
use std::collections::BTreeMap;

/// A copy of the project under a name, if there is one.
pub(crate) fn project_in(
    alloc: Global,
    tables: &BTreeMap<Name, Project>,
    name: &Name,
) -> Result<Option<Project>, NoMemory>
    ensures { IfOk result (λ found. found ≡ project_at tables.now.entries name.now) }
{
    match tables.get(name) {
        Some(project) => Ok(Some(project.copy(alloc)?)),
        None => Ok(None),
    }
}

/// Copies of all names, ascending.
pub(crate) fn names_in(
    alloc: Global,
    tables: &BTreeMap<Name, Project>,
) -> Result<Vec<Name>, NoMemory>
    ensures { IfOk result (λ names. names.items ≡ names_of tables.now.entries) }
{
    let mut names = Vec::new(alloc);
    for name in tables.keys() {
        names.push(name.copy())?;
    }
    Ok(names)
}

/// Puts a project under a name, in place of one that is there.
pub(crate) fn put_project(
    tables: &mut BTreeMap<Name, Project>,
    name: Name,
    project: Project,
) -> Result<(), NoMemory>
    ensures ok { OnOk result (tables.new.entries ≡ with_project tables.old.entries name project) }
    ensures err { OnErr result (tables.new.entries ≡ tables.old.entries) }
    ensures tables { IsTables tables.old.entries → IsTables tables.new.entries }
{
    // they are a name and a project
    let _name = name.text();
    let _rev = project.rev();
    tables.insert(name, project)?;
    Ok(())
}

/// Takes a step of the project under a name.
pub(crate) fn take_step(
    alloc: Global,
    tables: &mut BTreeMap<Name, Project>,
    name: &Name,
    step: &Step,
) -> Result<(), NoMemory>
    requires { CanCommit tables.old.entries name.now step.now }
    ensures ok { OnOk result (IsCommitted tables.old.entries name.now step.now tables.new.entries) }
    ensures err { OnErr result (tables.new.entries ≡ tables.old.entries) }
    ensures tables { IsTables tables.old.entries → IsTables tables.new.entries }
{
    // the names in the map ascend
    let _count = tables.len();
    let Some(project) = tables.get_mut(name) else {
        unreachable!();
    };
    project.take(alloc, step)?;
    // it is a project still
    let _rev = project.rev();
    Ok(())
}
