//! Laws of steps and of tables. Each is a theorem: a function that does nothing, whose clause says
//! what holds.
ghost use Rattle.std.specs.Prelude.{◌≡◌, ◌≢◌, ◌↔◌, ℕ, List, [], ◌∷◌, ◌++◌, Some};
ghost use Rattle.std.specs.Map.{keys_of};
ghost use Rattle.pattern.specs.Deltas.{Fits, Leads, inverse_of};
ghost use Rattle.sheet.specs.Pattern.{ExactPattern, IsPattern};
ghost use Rattle.pattern.specs.declared.delta.Delta.{Delta as AnyDelta};
ghost use Rattle.projects.specs.Projects.{ExactProject, IsProject, IsPast};
ghost use Rattle.projects.specs.Steps.{Stepped};
ghost use Rattle.projects.specs.Tables.{Tables, IsTables, names_of, project_at, with_project};
ghost use Rattle.projects.specs.Entries.{Entry, Entries, StandsFor, StandFor, entry_at, with_entry};
ghost use Rattle.projects.specs.Machine.{edited, undone, redone};
ghost use Rattle.projects.specs.declared.step.Step.{Step as AnyStep};
ghost use Rattle.projects.specs.declared.step.Step.TheVariants as step;

/// A step leads from a project to one project.
pub fn step_leads_to_one()
    ensures { (before after other : ExactProject) (taken : AnyStep) → Stepped before taken after
        → Stepped before taken other → after ≡ other }
{}

/// An undo after a delta gives the pattern back.
pub fn undo_gives_back()
    ensures { (before after again : ExactProject) (delta : AnyDelta) → IsProject before
        → Fits before.pattern delta → Stepped before (step.Do delta) after → Stepped after step.Undo again
        → again.pattern ≡ before.pattern }
{}

/// A redo after an undo gives the pattern and the history back.
pub fn redo_gives_back()
    ensures pattern { (before after again : ExactProject) → IsProject before
        → Stepped before step.Undo after → Stepped after step.Redo again → again.pattern ≡ before.pattern }
    ensures history { (before after again : ExactProject) → Stepped before step.Undo after
        → Stepped after step.Redo again → again.history ≡ before.history }
{}

/// A past leads to a pattern exactly where the inverse of its last delta fits there and leads to one
/// to which the others lead.
pub fn past_is_taken_back()
    ensures { (deltas : List AnyDelta) (delta : AnyDelta) (now : ExactPattern) → IsPattern now
        → IsPast (deltas ++ delta ∷ []) now
        ↔ (Fits now (inverse_of delta)
        × ((earlier : ExactPattern) × Leads now (inverse_of delta) earlier × IsPast deltas earlier)) }
{}

/// Tables with a project under a name have it there, and all others as they were.
pub fn tables_hold_what_was_put()
    ensures here { (tables : Tables) (name : List ℕ) (project : ExactProject)
        → project_at (with_project tables name project) name ≡ Some project }
    ensures elsewhere { (tables : Tables) (name : List ℕ) (project : ExactProject) (other : List ℕ)
        → other ≢ name → project_at (with_project tables name project) other ≡ project_at tables other }
{}

/// A project stands for one entry.
pub fn entry_is_one()
    ensures some { (project : ExactProject) → IsProject project → (entry : Entry) × StandsFor project entry }
    ensures one { (project : ExactProject) (entry other : Entry)
        → StandsFor project entry → StandsFor project other → entry ≡ other }
{}

/// Tables stand for one list of entries.
pub fn entries_are_one()
    ensures some { (tables : Tables) → IsTables tables → (entries : Entries) × StandFor tables entries }
    ensures one { (tables : Tables) (entries others : Entries)
        → StandFor tables entries → StandFor tables others → entries ≡ others }
{}

/// Tables have the names of the entries for which they stand, and a project that is put under a name
/// stands for an entry that is put under it.
pub fn tables_stand_for_entries()
    ensures names { (tables : Tables) (entries : Entries) → StandFor tables entries
        → names_of tables ≡ keys_of entries }
    ensures put { (tables : Tables) (entries : Entries) (name : List ℕ) (project : ExactProject)
        (entry : Entry)
        → StandFor tables entries → StandsFor project entry
        → StandFor (with_project tables name project) (with_entry entries name entry) }
    ensures there { (tables : Tables) (entries : Entries) (name : List ℕ) (project : ExactProject)
        (entry : Entry)
        → StandFor tables entries → project_at tables name ≡ Some project → entry_at entries name ≡ Some entry
        → StandsFor project entry }
{}

/// After a step of a project its entry is the one after an edit, an undo or a redo.
pub fn steps_stand()
    ensures edit { (project after : ExactProject) (entry : Entry) (delta : AnyDelta)
        → IsProject project → StandsFor project entry → Fits project.pattern delta
        → Stepped project (step.Do delta) after → StandsFor after (edited entry after.pattern) }
    ensures undo { (project after : ExactProject) (entry : Entry)
        → StandsFor project entry → Stepped project step.Undo after
        → (earlier : List ExactPattern) × (entry.past ≡ earlier ++ after.pattern ∷ [])
        × StandsFor after (undone entry earlier after.pattern) }
    ensures redo { (project after : ExactProject) (entry : Entry)
        → IsProject project → StandsFor project entry → Stepped project step.Redo after
        → (later : List ExactPattern) × (entry.future ≡ after.pattern ∷ later)
        × StandsFor after (redone entry after.pattern later) }
{}
