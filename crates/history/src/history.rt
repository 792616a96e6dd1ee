//! A history: the deltas that were taken, and those that can be redone.
ghost use Rattle.std.specs.Prelude.{◌≡◌, ◌<◌, ◌↔◌, [], length, IfSome, IfOk, IsNone, IsTrue, OnOk, OnErr};
ghost use Rattle.history.specs.Histories.{IsHistory, pushed, IsBack, IsLast, IsFirst};

use pattern::Delta;
use ports::NoMemory;
use std::alloc::Global;
use std::collections::VecDeque;
use std::marker::Model;

/// How many deltas a history keeps.
const MOST: usize = 1000;

/// The deltas of an edited pattern: those of the past, oldest first, and those that were taken back,
/// next first. There are at most 1,000 in all.
#[derive(Drop)]
pub struct History {
    past: VecDeque<Delta>,
    future: VecDeque<Delta>,
}

impl Model for History {
    ghost use Rattle.history.specs.Histories.{ExactHistory, IsHistory};

    ghost Value = { ExactHistory };

    ghost view = { λ s. record { past = s.past.items; future = s.future.items } };

    ghost invariant = { λ s. IsHistory (record { past = s.past.items; future = s.future.items }) };
}

impl History {
    /// The history without deltas. It takes no memory.
    pub fn new(alloc: Global) -> History
        ensures { result ≡ record { past = []; future = [] } }
    {
        History {
            past: VecDeque::new(alloc),
            future: VecDeque::new(alloc),
        }
    }

    /// Whether there is a delta to undo.
    pub fn can_undo(&self) -> bool
        ensures past { IsTrue result ↔ (0 < length self.now.past) }
        ensures most { IsHistory self.now }
    {
        !self.past.is_empty()
    }

    /// Whether there is a delta to redo.
    pub fn can_redo(&self) -> bool
        ensures future { IsTrue result ↔ (0 < length self.now.future) }
        ensures most { IsHistory self.now }
    {
        !self.future.is_empty()
    }

    /// The newest delta of the past, which is the one to undo, or None where there is none.
    pub fn last(&self) -> Option<&Delta>
        ensures some { IfSome result (λ delta. IsLast self.now.past delta.now) }
        ensures none { IsNone result → self.now.past ≡ [] }
    {
        self.past.back()
    }

    /// The delta to redo, or None where there is none.
    pub fn next(&self) -> Option<&Delta>
        ensures some { IfSome result (λ delta. IsFirst self.now.future delta.now) }
        ensures none { IsNone result → self.now.future ≡ [] }
    {
        self.future.front()
    }

    /// Adds a delta to the past, of which only the newest 1,000 are kept, and empties the future.
    ///
    /// # Errors
    ///
    /// `NoMemory` where memory for the past runs out. Then the history is as it was, and the delta
    /// is dropped.
    pub fn push(&mut self, delta: Delta) -> Result<(), NoMemory>
        ensures ok { OnOk result (self.new ≡ pushed self.old delta) }
        ensures err { OnErr result (self.new ≡ self.old) }
    {
        self.past.push_back(delta)?;
        if self.past.len() > MOST {
            let _oldest = self.past.pop_front();
        }
        self.future.clear();
        Ok(())
    }

    /// Moves the newest delta of the past to the front of the future: it was undone.
    ///
    /// # Errors
    ///
    /// `NoMemory` where memory for the future runs out. Then the history is as it was.
    pub fn back(&mut self) -> Result<(), NoMemory>
        requires { 0 < length self.old.past }
        ensures ok { OnOk result (IsBack self.old self.new) }
        ensures err { OnErr result (self.new ≡ self.old) }
    {
        self.future.reserve(1)?;
        if let Some(delta) = self.past.pop_back() {
            self.future.push_front_reserved(delta);
        }
        Ok(())
    }

    /// Moves the delta at the front of the future to the end of the past: it was redone.
    ///
    /// # Errors
    ///
    /// `NoMemory` where memory for the past runs out. Then the history is as it was.
    pub fn forth(&mut self) -> Result<(), NoMemory>
        requires { 0 < length self.old.future }
        ensures ok { OnOk result (IsBack self.new self.old) }
        ensures err { OnErr result (self.new ≡ self.old) }
    {
        self.past.reserve(1)?;
        if let Some(delta) = self.future.pop_front() {
            self.past.push_back_reserved(delta);
        }
        Ok(())
    }

    /// An equal history.
    ///
    /// # Errors
    ///
    /// `NoMemory` where memory for the deltas runs out.
    pub fn copy(&self, alloc: Global) -> Result<History, NoMemory>
        ensures { IfOk result (λ history. history ≡ self.now) }
    {
        Ok(History {
            past: copied(alloc, &self.past)?,
            future: copied(alloc, &self.future)?,
        })
    }
}

/// Equal deltas in the same order.
fn copied(alloc: Global, deltas: &VecDeque<Delta>) -> Result<VecDeque<Delta>, NoMemory>
    ensures { IfOk result (λ list. list.items ≡ deltas.now.items) }
{
    let mut list = VecDeque::new(alloc);
    for delta in deltas.iter() {
        list.push_back(delta.copy(alloc)?)?;
    }
    Ok(list)
}
