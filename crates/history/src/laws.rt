//! Laws of undoing and redoing: each leads to one history, and takes back the other. Each is a
//! theorem: a function that does nothing, whose clause says what holds.
ghost use Rattle.std.specs.Prelude.{◌≡◌};
ghost use Rattle.history.specs.Histories.{ExactHistory, IsBack};

/// From a history, undoing leads to one history: undoing what was just redone leads back.
pub fn undoing_is_one()
    ensures { (later earlier other : ExactHistory) → IsBack later earlier → IsBack later other
        → earlier ≡ other }
{}

/// From a history, redoing leads to one history: redoing what was just undone leads back.
pub fn redoing_is_one()
    ensures { (later other earlier : ExactHistory) → IsBack later earlier → IsBack other earlier
        → later ≡ other }
{}
