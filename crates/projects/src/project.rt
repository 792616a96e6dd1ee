//! Projects: a pattern, how often it was changed, and the deltas that lead to it and on from it.
ghost use Rattle.std.specs.Prelude.{◌≡◌, ◌+◌, ◌<◌, ◌↔◌, IfOk, IsSome, OnOk, OnErr, IfSome, IsTrue, length};
ghost use Rattle.projects.specs.Projects.{IsProject, IsPast, IsFuture, empty_project, last_rev};
ghost use Rattle.projects.specs.Steps.{StepFits, Stepped, LeadsBack, LeadsForth};

use crate::Step;
use dialogue::LAST_REV;
use history::History;
use pattern::{Delta, Pattern};
use ports::NoMemory;
use sheet::Sheet;
use std::alloc::Global;
use std::marker::Model;

/// A project: its pattern, the number of steps that were taken, and the deltas to undo and to redo.
#[derive(Drop)]
pub struct Project {
    rev: u64,
    pattern: Pattern,
    history: History,
}

impl Model for Project {
    ghost use Rattle.projects.specs.Projects.{ExactProject, IsProject};

    ghost Value = { ExactProject };

    ghost view = { λ s. record { rev = s.rev; pattern = s.pattern; history = s.history } };

    ghost invariant = { λ s. IsProject (record { rev = s.rev; pattern = s.pattern; history = s.history }) };
}

impl Project {
    /// A project of these parts, or None exactly where the rev is above 10^12 or the deltas do not
    /// fit in turn, backwards through the past and forwards through the future.
    ///
    /// # Errors
    ///
    /// `NoMemory` where memory for the patterns on the way runs out.
    pub fn new(
        alloc: Global,
        rev: u64,
        pattern: Pattern,
        history: History,
    ) -> Result<Option<Project>, NoMemory>
        ensures some { IfOk result
            (λ found. IfSome found
            (λ project. project ≡ record { rev = rev; pattern = pattern; history = history })) }
        ensures exactly { IfOk result
            (λ found. IsSome found ↔ IsProject (record { rev = rev; pattern = pattern; history = history })) }
    {
        // what stands in them are a pattern and at most 1,000 deltas
        let _creases = pattern.len();
        let _undo = history.can_undo();
        if rev > LAST_REV || !is_past(alloc, &history, &pattern)? {
            return Ok(None);
        }
        if !is_future(alloc, &pattern, &history)? {
            return Ok(None);
        }
        Ok(Some(Project {
            rev,
            pattern,
            history,
        }))
    }

    /// The project on a sheet without creases and without steps. It takes no memory.
    pub(crate) fn empty(alloc: Global, sheet: Sheet) -> Project
        ensures empty { result ≡ empty_project sheet }
        ensures project { IsProject result }
    {
        let pattern = Pattern::empty(alloc, sheet);
        // no creases are a pattern
        let _none = pattern.len();
        Project {
            rev: 0,
            pattern,
            history: History::new(alloc),
        }
    }

    /// How many steps were taken, at most 10^12.
    pub fn rev(&self) -> u64
        ensures rev { result ≡ self.now.rev }
        ensures project { IsProject self.now }
    {
        self.rev
    }

    /// The present pattern.
    pub fn pattern(&self) -> &Pattern
        ensures pattern { result.now ≡ self.now.pattern }
        ensures project { IsProject self.now }
    {
        &self.pattern
    }

    /// The deltas to undo and to redo.
    pub fn history(&self) -> &History
        ensures history { result.now ≡ self.now.history }
        ensures project { IsProject self.now }
    {
        &self.history
    }

    /// The rev, the present pattern, and the deltas to undo and to redo.
    pub fn into_parts(self) -> (u64, Pattern, History)
        ensures rev { result.0 ≡ self.rev }
        ensures pattern { result.1 ≡ self.pattern }
        ensures history { result.2 ≡ self.history }
        ensures project { IsProject self }
    {
        (self.rev, self.pattern, self.history)
    }

    /// An equal project.
    ///
    /// # Errors
    ///
    /// `NoMemory` where memory for the pattern or the history runs out.
    pub fn copy(&self, alloc: Global) -> Result<Project, NoMemory>
        ensures same { IfOk result (λ project. project ≡ self.now) }
        ensures project { IsProject self.now }
    {
        Ok(Project {
            rev: self.rev,
            pattern: self.pattern.copy(alloc)?,
            history: self.history.copy(alloc)?,
        })
    }

    /// Whether a step fits: the delta fits the pattern, there is something to undo, or there is
    /// something to redo. It takes no memory.
    pub fn fits(&self, step: &Step) -> bool
        ensures fits { IsTrue result ↔ StepFits self.now step.now }
        ensures project { IsProject self.now }
    {
        match step {
            Step::Do(delta) => self.pattern.fits(delta),
            Step::Undo => self.history.can_undo(),
            Step::Redo => self.history.can_redo(),
        }
    }

    /// Takes a step that fits.
    ///
    /// # Errors
    ///
    /// `NoMemory` where memory runs out. Then the project is as it was.
    pub(crate) fn take(&mut self, alloc: Global, step: &Step) -> Result<(), NoMemory>
        requires fits { StepFits self.old step.now }
        requires rev { self.old.rev < last_rev }
        ensures ok { OnOk result (Stepped self.old step.now self.new) }
        ensures err { OnErr result (self.new ≡ self.old) }
    {
        match step {
            Step::Do(delta) => self.take_delta(alloc, delta),
            Step::Undo => self.undo(alloc),
            Step::Redo => self.redo(alloc),
        }
    }

    /// Takes a delta that fits, and keeps it as the last of the past.
    fn take_delta(&mut self, alloc: Global, delta: &Delta) -> Result<(), NoMemory>
        requires fits { StepFits self.old (Step.Do delta.now) }
        requires rev { self.old.rev < last_rev }
        ensures ok { OnOk result (Stepped self.old (Step.Do delta.now) self.new) }
        ensures err { OnErr result (self.new ≡ self.old) }
    {
        let pattern = self.pattern.applied(alloc, delta)?;
        self.history.push(delta.copy(alloc)?)?;
        self.pattern = pattern;
        self.rev += 1;
        Ok(())
    }

    /// Takes the last delta back, which becomes the next of the future.
    fn undo(&mut self, alloc: Global) -> Result<(), NoMemory>
        requires fits { StepFits self.old Step.Undo }
        requires rev { self.old.rev < last_rev }
        ensures ok { OnOk result (Stepped self.old Step.Undo self.new) }
        ensures err { OnErr result (self.new ≡ self.old) }
    {
        let pattern = self.undone(alloc)?;
        self.history.back()?;
        self.pattern = pattern;
        self.rev += 1;
        Ok(())
    }

    /// Takes the next delta again, which becomes the last of the past.
    fn redo(&mut self, alloc: Global) -> Result<(), NoMemory>
        requires fits { StepFits self.old Step.Redo }
        requires rev { self.old.rev < last_rev }
        ensures ok { OnOk result (Stepped self.old Step.Redo self.new) }
        ensures err { OnErr result (self.new ≡ self.old) }
    {
        let pattern = self.redone(alloc)?;
        self.history.forth()?;
        self.pattern = pattern;
        self.rev += 1;
        Ok(())
    }

    /// The pattern after the last delta of the past was taken back.
    fn undone(&self, alloc: Global) -> Result<Pattern, NoMemory>
        requires { 0 < length self.now.history.past }
        ensures { IfOk result (LeadsBack self.now) }
    {
        let Some(last) = self.history.last() else {
            unreachable!();
        };
        let inverse = last.copy(alloc)?.inverse();
        self.pattern.applied(alloc, &inverse)
    }

    /// The pattern after the next delta of the future was taken.
    fn redone(&self, alloc: Global) -> Result<Pattern, NoMemory>
        requires { 0 < length self.now.history.future }
        ensures { IfOk result (LeadsForth self.now) }
    {
        let Some(next) = self.history.next() else {
            unreachable!();
        };
        self.pattern.applied(alloc, next)
    }
}

/// Whether the deltas of the past lead to this pattern. They are taken back, from the last on.
fn is_past(alloc: Global, history: &History, pattern: &Pattern) -> Result<bool, NoMemory>
    ensures { IfOk result (λ is. IsTrue is ↔ IsPast history.now.past pattern.now) }
{
    let mut rest = history.copy(alloc)?;
    let mut now = pattern.copy(alloc)?;
    while let Some(delta) = rest.last() {
        match now.retreat(delta)? {
            Some(earlier) => now = earlier,
            None => return Ok(false),
        }
        rest.back()?;
    }
    Ok(true)
}

/// Whether the deltas of the future lead on from this pattern.
fn is_future(alloc: Global, pattern: &Pattern, history: &History) -> Result<bool, NoMemory>
    ensures { IfOk result (λ is. IsTrue is ↔ IsFuture pattern.now history.now.future) }
{
    let mut rest = history.copy(alloc)?;
    let mut now = pattern.copy(alloc)?;
    while let Some(delta) = rest.next() {
        match now.advance(delta)? {
            Some(later) => now = later,
            None => return Ok(false),
        }
        rest.forth()?;
    }
    Ok(true)
}
