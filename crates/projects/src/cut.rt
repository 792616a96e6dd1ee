//! A project whose pattern is cut.
ghost use Rattle.std.specs.Prelude.{◌≡◌, IfOk, IfErr};
ghost use Rattle.subdivide.specs.Live.{IsCut};
ghost use Rattle.projects.specs.Projects.{IsProject};
ghost use Rattle.projects.specs.Ends.{EndsBy, IsUncut};

use crate::Project;
use crate::early::Early;
use crate::same::is_same_pattern;
use history::History;
use pattern::Pattern;
use std::alloc::Global;
use std::marker::Model;
use subdivide::Live;

/// A project whose pattern is cut. Contracts see the project.
#[derive(Drop)]
pub(crate) struct CutProject {
    pub(crate) rev: u64,
    pub(crate) live: Live,
    pub(crate) history: History,
}

impl Model for CutProject {
    ghost use Rattle.projects.specs.Projects.{ExactProject};

    ghost Value = { ExactProject };

    ghost view = { λ s. record { rev = s.rev; pattern = s.live; history = s.history } };
}

impl CutProject {
    /// Cuts the pattern of a project, but where it is the one that is kept.
    pub(crate) fn new(
        alloc: Global,
        kept: Option<Live>,
        project: Project,
    ) -> Result<CutProject, Early>
        ensures ok { IfOk result (λ opened. opened ≡ project) }
        ensures cut { IfOk result (λ _. IsCut project.pattern) }
        ensures is { IsProject project }
        ensures err { IfErr result (EndsBy (IsUncut project.pattern)) }
    {
        let (rev, pattern, history) = project.into_parts();
        let live = cut_or_kept(alloc, kept, pattern)?;
        // it is cut
        let _pattern = live.pattern();
        Ok(CutProject { rev, live, history })
    }
}

/// A pattern, cut: the one that is kept, where that is this one.
fn cut_or_kept(alloc: Global, kept: Option<Live>, pattern: Pattern) -> Result<Live, Early>
    ensures ok { IfOk result (λ live. live ≡ pattern) }
    ensures err { IfErr result (EndsBy (IsUncut pattern)) }
{
    if let Some(live) = kept {
        if is_same_pattern(live.pattern(), &pattern) {
            return Ok(live);
        }
    }
    Ok(Live::start(alloc, pattern)?)
}
