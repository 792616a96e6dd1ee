//! The step that a change makes of a project, or why there is none.
ghost use Rattle.std.specs.Prelude.{◌≡◌, ◌<◌, IfOk, IfErr};
ghost use Rattle.dialogue.specs.Revs.{last_rev};
ghost use Rattle.dialogue.specs.declared.cause.Cause.TheVariants as cause;
ghost use Rattle.dialogue.specs.declared.command.Change.TheVariants as change;
ghost use Rattle.pattern.specs.Deltas.{Fits};
ghost use Rattle.subdivide.specs.Live.{IsCut};
ghost use Rattle.projects.specs.Projects.{IsProject};
ghost use Rattle.projects.specs.Machine.{Unless, IsStale};
ghost use Rattle.projects.specs.Ends.{EndsBy};
ghost use Rattle.projects.specs.Changes.{PlansOn, RefusesEdit, StepsOn, Refuses};
ghost use Rattle.projects.specs.Changes.{LeadsToCut, IsUncutAfter, MakesStep, RefusesChange};

use crate::cut::CutProject;
use crate::early::Early;
use crate::{Project, Step};
use cpfile::read_cp;
use dialogue::{Cause, Change, LAST_REV, Reply};
use edits::{Edit, plan};
use lattice::Lattice;
use pattern::{Delta, delta_leads_to_one};
use ports::Listed;
use std::alloc::Global;
use subdivide::Live;

/// A step that can be taken, the pattern to which it leads, cut, and what is answered after it.
#[derive(Drop)]
pub(crate) struct Ready {
    pub(crate) step: Step,
    pub(crate) next: Live,
    pub(crate) reply: Reply,
}

/// The step that a change makes of a project, where the rev is right and both patterns are cut. The
/// present one is kept.
pub(crate) fn step_of(
    alloc: Global,
    kept: &mut Option<Live>,
    project: Project,
    given: Option<u64>,
    change: &Change,
) -> Result<Ready, Early>
    ensures ok { IfOk result (MakesStep project given change.now) }
    ensures err { IfErr result (EndsBy (RefusesChange project given change.now)) }
{
    let opened = CutProject::new(alloc, kept.take(), project)?;
    let ready = tested_step(alloc, &opened, given, change);
    *kept = Some(opened.live);
    ready
}

/// The step that a change makes of a project that is cut, where the rev is right.
fn tested_step(
    alloc: Global,
    opened: &CutProject,
    given: Option<u64>,
    change: &Change,
) -> Result<Ready, Early>
    requires is { IsProject opened.now }
    requires cut { IsCut opened.now.pattern }
    ensures ok { IfOk result (MakesStep opened.now given change.now) }
    ensures err { IfErr result (EndsBy (RefusesChange opened.now given change.now)) }
{
    test_rev(opened.rev, given)?;
    change_step(alloc, opened, change)
}

/// Whether the rev that was given, if one was, is the kept one, and the kept one can rise.
fn test_rev(kept: u64, given: Option<u64>) -> Result<(), Cause>
    ensures { Unless (IsStale given kept) (cause.Stale kept)
        (Unless (kept ≡ last_rev) cause.RevFull (λ a. a ≡ Ok tt)) result }
{
    if let Some(given) = given {
        if given != kept {
            return Err(Cause::Stale { rev: kept });
        }
    }
    if kept == LAST_REV {
        return Err(Cause::RevFull);
    }
    Ok(())
}

/// The step that a change makes, where the pattern to which it leads is cut.
fn change_step(alloc: Global, opened: &CutProject, change: &Change) -> Result<Ready, Early>
    requires { IsProject opened.now }
    ensures ok { IfOk result (StepsOn opened.now change.now) }
    ensures err { IfErr result (EndsBy (Refuses opened.now change.now)) }
{
    match change {
        Change::Edit(edit) => edit_step(alloc, opened, edit),
        Change::Import { lattice, text } => import_step(alloc, opened, lattice, text),
        Change::Undo => undo_step(alloc, opened),
        Change::Redo => redo_step(alloc, opened),
    }
}

/// The step of an edit.
fn edit_step(alloc: Global, opened: &CutProject, edit: &Edit) -> Result<Ready, Early>
    requires { IsProject opened.now }
    ensures ok { IfOk result (StepsOn opened.now (change.Edit edit.now)) }
    ensures err { IfErr result (EndsBy (Refuses opened.now (change.Edit edit.now))) }
{
    let (step, next) = planned(alloc, opened, edit)?;
    Ok(Ready {
        step,
        next,
        reply: Reply::Done {
            rev: opened.rev + 1,
        },
    })
}

/// The step that draws the lines of a CP text.
fn import_step(
    alloc: Global,
    opened: &CutProject,
    lattice: &Lattice,
    text: &Listed<u8>,
) -> Result<Ready, Early>
    requires { IsProject opened.now }
    ensures ok { IfOk result (StepsOn opened.now (change.Import lattice.now text.now)) }
    ensures err { IfErr result (EndsBy (Refuses opened.now (change.Import lattice.now text.now))) }
{
    let sheet = opened.live.pattern().sheet();
    let read = read_cp(alloc, text.as_slice(), lattice, &sheet)?;
    let drawn = read.lines.as_slice().len() as u64;
    let dropped = read.dropped;
    let (step, next) = planned(alloc, opened, &Edit::Lines(read.lines))?;
    Ok(Ready {
        step,
        next,
        reply: Reply::Imported {
            rev: opened.rev + 1,
            drawn,
            dropped,
        },
    })
}

/// The step of an edit, and the pattern to which it leads, cut.
fn planned(alloc: Global, opened: &CutProject, edit: &Edit) -> Result<(Step, Live), Early>
    ensures ok { IfOk result (λ made. PlansOn opened.now edit.now made.0 made.1) }
    ensures err { IfErr result (EndsBy (RefusesEdit opened.now edit.now)) }
{
    let delta = plan(alloc, opened.live.pattern(), edit)?;
    let next = cut_after(alloc, &opened.live, &delta)?;
    Ok((Step::Do(delta), next))
}

/// The step that takes the last change back.
fn undo_step(alloc: Global, opened: &CutProject) -> Result<Ready, Early>
    requires { IsProject opened.now }
    ensures ok { IfOk result (StepsOn opened.now change.Undo) }
    ensures err { IfErr result (EndsBy (Refuses opened.now change.Undo)) }
{
    let Some(last) = opened.history.last() else {
        return Err(Early::Refused(Cause::NothingToUndo));
    };
    let back = last.copy(alloc)?.inverse();
    let next = cut_after(alloc, &opened.live, &back)?;
    Ok(Ready {
        step: Step::Undo,
        next,
        reply: Reply::Done {
            rev: opened.rev + 1,
        },
    })
}

/// The step that makes the next change again.
fn redo_step(alloc: Global, opened: &CutProject) -> Result<Ready, Early>
    requires { IsProject opened.now }
    ensures ok { IfOk result (StepsOn opened.now change.Redo) }
    ensures err { IfErr result (EndsBy (Refuses opened.now change.Redo)) }
{
    let Some(first) = opened.history.next() else {
        return Err(Early::Refused(Cause::NothingToRedo));
    };
    let next = cut_after(alloc, &opened.live, first)?;
    Ok(Ready {
        step: Step::Redo,
        next,
        reply: Reply::Done {
            rev: opened.rev + 1,
        },
    })
}

/// The pattern to which a delta leads, cut.
fn cut_after(alloc: Global, live: &Live, delta: &Delta) -> Result<Live, Early>
    requires { Fits live.now delta.now }
    ensures ok { IfOk result (LeadsToCut live.now delta.now) }
    ensures err { IfErr result (EndsBy (IsUncutAfter live.now delta.now)) }
{
    delta_leads_to_one();
    let next = live.pattern().applied(alloc, delta)?;
    Ok(Live::start(alloc, next)?)
}
