//! The creases of a map, one after another: all of them, or those that overlap a segment.
ghost use Rattle.std.specs.Prelude.{◌≡◌};
ghost use Rattle.std.specs.Iterator.{YieldsFirst, item_count};
ghost use Rattle.std.specs.Map.{values_of};
ghost use Rattle.creases.specs.Segments.{creases_of};

use crate::Crease;
use crate::place::Place;
use plane::Seg;
use sheet::Colour;
use std::collections::BTreeMap;
use std::collections::btree_map::{Iter, Range};
use std::marker::Model;

/// The creases of a map, ascending by their segments. Contracts see the list of those that are
/// still to come.
#[derive(Drop)]
pub struct Creases<'a> {
    entries: Iter<'a, Seg, Colour>,
}

impl<'a> Model for Creases<'a> {
    ghost use Rattle.std.specs.Prelude.{List};
    ghost use Rattle.sheet.specs.Pattern.{ExactCrease};
    ghost use Rattle.creases.specs.Segments.{creases_of};

    ghost Value = { List ExactCrease };

    ghost view = { λ s. creases_of s.entries };
}

impl<'a> Creases<'a> {
    pub(crate) fn new(entries: &'a BTreeMap<Seg, Colour>) -> Creases<'a>
        ensures { result ≡ creases_of entries.now.entries }
    {
        Creases {
            entries: entries.iter(),
        }
    }
}

impl<'a> Iterator for Creases<'a> {
    type Item = Crease;

    ghost next_gives = { YieldsFirst (λ s. s) };

    ghost remaining = { item_count (λ s. s) };

    fn next(&mut self) -> Option<Crease> {
        let (seg, colour) = self.entries.next()?;
        Some(Crease {
            seg: *seg,
            colour: *colour,
        })
    }
}

/// The creases that overlap a segment, in the order in which they follow one another on its line.
/// Contracts see the list of those that are still to come.
#[derive(Drop)]
pub struct Overlapping<'a> {
    entries: Range<'a, Place, Crease>,
}

impl<'a> Model for Overlapping<'a> {
    ghost use Rattle.std.specs.Prelude.{List};
    ghost use Rattle.std.specs.Map.{values_of};
    ghost use Rattle.sheet.specs.Pattern.{ExactCrease};

    ghost Value = { List ExactCrease };

    ghost view = { λ s. values_of s.entries };
}

impl<'a> Overlapping<'a> {
    pub(crate) fn new(entries: Range<'a, Place, Crease>) -> Overlapping<'a>
        ensures { result ≡ values_of entries.entry }
    {
        Overlapping { entries }
    }
}

impl<'a> Iterator for Overlapping<'a> {
    type Item = Crease;

    ghost next_gives = { YieldsFirst (λ s. s) };

    ghost remaining = { item_count (λ s. s) };

    fn next(&mut self) -> Option<Crease> {
        let (_, crease) = self.entries.next()?;
        Some(*crease)
    }
}
