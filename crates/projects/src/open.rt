//! A project whose pattern is cut and judged.
ghost use Rattle.std.specs.Prelude.{◌≡◌, IfOk, IfErr};
ghost use Rattle.subdivide.specs.Live.{IsCut};
ghost use Rattle.projects.specs.Projects.{IsProject};
ghost use Rattle.projects.specs.Ends.{EndsBy, IsUncut};

use crate::Project;
use crate::early::Early;
use history::History;
use judge::Judged;
use std::alloc::Global;
use std::marker::Model;

/// A project whose pattern is cut and judged. Contracts see the project.
#[derive(Drop)]
pub(crate) struct OpenProject {
    pub(crate) rev: u64,
    pub(crate) judged: Judged,
    pub(crate) history: History,
}

impl Model for OpenProject {
    ghost use Rattle.projects.specs.Projects.{ExactProject};

    ghost Value = { ExactProject };

    ghost view = { λ s. record { rev = s.rev; pattern = s.judged; history = s.history } };
}

impl OpenProject {
    /// Cuts the pattern of a project.
    pub(crate) fn new(alloc: Global, project: Project) -> Result<OpenProject, Early>
        ensures ok { IfOk result (λ opened. opened ≡ project) }
        ensures cut { IfOk result (λ _. IsCut project.pattern) }
        ensures is { IsProject project }
        ensures err { IfErr result (EndsBy (IsUncut project.pattern)) }
    {
        let (rev, pattern, history) = project.into_parts();
        let judged = Judged::start(alloc, pattern)?;
        // it is cut
        let _pattern = judged.pattern();
        Ok(OpenProject {
            rev,
            judged,
            history,
        })
    }
}
