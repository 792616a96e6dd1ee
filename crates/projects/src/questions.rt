//! Questions about the pattern of a project.
ghost use Rattle.projects.specs.Machine.{Shows, ListsFaults, Reports, Writes, WritesCp, WritesFold};
ghost use Rattle.projects.specs.Ends.{Answers};
ghost use Rattle.projects.specs.Desk.{HasFailed};

use crate::Project;
use crate::cut::CutProject;
use crate::early::Early;
use crate::open::OpenProject;
use cpfile::write_cp;
use dialogue::{Cause, Reply};
use foldfile::write_fold;
use pattern::pattern_bytes;
use plane::Point;
use ports::Listed;
use std::alloc::Global;

/// The vertices and edges of a project's pattern.
pub(crate) fn shown(alloc: Global, project: Project) -> Result<Reply, Early>
    ensures answers { Answers (Shows project.rev project.pattern) result }
    ensures keeper { ¬ HasFailed result }
{
    let opened = CutProject::new(alloc, None, project)?;
    let subdivision = opened.live.subdivision(alloc)?;
    Ok(Reply::Shown {
        rev: opened.rev,
        subdivision,
    })
}

/// The vertices of a project's pattern that cannot be folded flat.
pub(crate) fn faults(alloc: Global, project: Project) -> Result<Reply, Early>
    ensures answers { Answers (ListsFaults project.rev project.pattern) result }
    ensures keeper { ¬ HasFailed result }
{
    let opened = OpenProject::new(alloc, project)?;
    let list = Vec::from_slice(alloc, opened.judged.faults())?;
    Ok(Reply::Faults {
        rev: opened.rev,
        list: Listed::new(list),
    })
}

/// What is said of a vertex of a project's pattern.
pub(crate) fn reported(alloc: Global, project: Project, at: &Point) -> Result<Reply, Early>
    ensures answers { Answers (Reports at.now project.rev project.pattern) result }
    ensures keeper { ¬ HasFailed result }
{
    let opened = OpenProject::new(alloc, project)?;
    match opened.judged.report(at) {
        Some(report) => Ok(Reply::Vertex { at: *at, report }),
        None => Err(Early::Refused(Cause::NoVertex)),
    }
}

/// The native text of a project's pattern.
pub(crate) fn written(alloc: Global, project: &Project) -> Result<Reply, Early>
    ensures answers { Answers (Writes project.now.rev project.now.pattern) result }
    ensures keeper { ¬ HasFailed result }
{
    let text = pattern_bytes(alloc, project.pattern())?;
    Ok(Reply::Text(Listed::new(text)))
}

/// The CP text of the subdivision of a project's pattern.
pub(crate) fn cp_written(alloc: Global, project: Project) -> Result<Reply, Early>
    ensures answers { Answers (WritesCp project.rev project.pattern) result }
    ensures keeper { ¬ HasFailed result }
{
    let opened = CutProject::new(alloc, None, project)?;
    let subdivision = opened.live.subdivision(alloc)?;
    Ok(Reply::Text(Listed::new(write_cp(alloc, &subdivision)?)))
}

/// The FOLD text of the subdivision of a project's pattern.
pub(crate) fn fold_written(alloc: Global, project: Project) -> Result<Reply, Early>
    ensures answers { Answers (WritesFold project.rev project.pattern) result }
    ensures keeper { ¬ HasFailed result }
{
    let opened = CutProject::new(alloc, None, project)?;
    let subdivision = opened.live.subdivision(alloc)?;
    Ok(Reply::Text(Listed::new(write_fold(alloc, &subdivision)?)))
}
