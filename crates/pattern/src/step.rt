//! A pattern changed in place, as a delta says.
ghost use Rattle.std.specs.Prelude.{◌↔◌, ◌⊎◌, All, Contains, IfOk, IfSome, IsSome, IsTrue};
ghost use Rattle.sheet.specs.Pattern.{ExactCrease};
ghost use Rattle.creases.specs.Creases.{Ascends};
ghost use Rattle.pattern.specs.Deltas.{Fits, Leads, inverse_of};
ghost use Rattle.pattern.specs.Fitting.{CanCome};
ghost use Rattle.pattern.specs.declared.delta.Delta.{Delta as AnyDelta};

use crate::fits::{ascend, is_key};
use crate::recolour::are_on_same;
use crate::{Crease, CreaseMap, Delta, Pattern};
use ports::NoMemory;
use sheet::{CREASE_LIMIT, Sheet};

impl Pattern {
    /// The pattern to which a delta leads from this one, or None exactly where the delta does not
    /// fit. It takes the time of the delta's creases.
    ///
    /// # Errors
    ///
    /// `NoMemory` where memory for a crease that comes runs out.
    pub fn advance(self, delta: &Delta) -> Result<Option<Pattern>, NoMemory>
        ensures some { IfOk result (λ found. IfSome found (Leads self delta.now)) }
        ensures exactly { IfOk result (λ found. IsSome found ↔ Fits self delta.now) }
    {
        self.changed(delta.removed.as_slice(), delta.added.as_slice())
    }

    /// The pattern to which the inverse of a delta leads from this one, or None exactly where the
    /// inverse does not fit. It takes the time of the delta's creases.
    ///
    /// # Errors
    ///
    /// `NoMemory` where memory for a crease that comes back runs out.
    pub fn retreat(self, delta: &Delta) -> Result<Option<Pattern>, NoMemory>
        ensures some { IfOk result (λ found. IfSome found (Leads self (inverse_of delta.now))) }
        ensures exactly { IfOk result (λ found. IsSome found ↔ Fits self (inverse_of delta.now)) }
    {
        self.changed(delta.added.as_slice(), delta.removed.as_slice())
    }

    /// The pattern without some of its creases and with others, or None exactly where that is no
    /// delta that fits.
    fn changed(self, gone: &[Crease], come: &[Crease]) -> Result<Option<Pattern>, NoMemory>
        ensures some { IfOk result
            (λ found. IfSome found
            (let delta : AnyDelta = record { removed = gone.now; added = come.now } in Leads self delta)) }
        ensures exactly { IfOk result
            (λ found. IsSome found
            ↔ (let delta : AnyDelta = record { removed = gone.now; added = come.now } in Fits self delta)) }
    {
        if !ascend(gone) {
            return Ok(None);
        }
        if !ascend(come) {
            return Ok(None);
        }
        if are_on_same(gone, come) {
            return Ok(self.recoloured(gone, come));
        }
        self.exchanged(gone, come)
    }

    /// As `changed`, for lists that ascend.
    fn exchanged(self, gone: &[Crease], come: &[Crease]) -> Result<Option<Pattern>, NoMemory>
        requires gone { Ascends gone.now }
        requires come { Ascends come.now }
        ensures some { IfOk result
            (λ found. IfSome found
            (let delta : AnyDelta = record { removed = gone.now; added = come.now } in Leads self delta)) }
        ensures exactly { IfOk result
            (λ found. IsSome found
            ↔ (let delta : AnyDelta = record { removed = gone.now; added = come.now } in Fits self delta)) }
    {
        let sheet = self.sheet();
        let mut creases = self.creases;
        if !take_all(&mut creases, gone) {
            return Ok(None);
        }
        if !put_all(&mut creases, &sheet, come)? {
            return Ok(None);
        }
        if creases.len() > CREASE_LIMIT {
            return Ok(None);
        }
        Ok(Some(Pattern { sheet, creases }))
    }
}

/// Takes these creases out, as far as the first that is not there, and says whether all were there.
fn take_all(creases: &mut CreaseMap, gone: &[Crease]) -> bool
    requires { Ascends gone.now }
    ensures all { IsTrue result ↔ All (λ f. Contains creases.old f) gone.now }
    ensures left { IsTrue result → (f : ExactCrease)
        → Contains creases.new f ↔ (Contains creases.old f × (¬ Contains gone.now f)) }
{
    for crease in gone {
        if !creases.take(crease) {
            return false;
        }
    }
    true
}

/// Puts these creases in, as far as the first that cannot stand on the sheet or overlaps one that
/// is there, and says whether all came.
pub(crate) fn put_all(
    creases: &mut CreaseMap,
    sheet: &Sheet,
    come: &[Crease],
) -> Result<bool, NoMemory>
    ensures all { IfOk result (λ all. IsTrue all ↔ CanCome sheet.now creases.old come.now) }
    ensures more { IfOk result
        (λ all. IsTrue all → (f : ExactCrease)
        → Contains creases.new f ↔ (Contains come.now f ⊎ Contains creases.old f)) }
{
    for crease in come {
        if !is_key(sheet, &crease.seg) {
            return Ok(false);
        }
        if !creases.put_if_free(*crease)? {
            return Ok(false);
        }
    }
    Ok(true)
}
