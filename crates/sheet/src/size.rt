//! The sheet by its width and its height.
ghost use Rattle.std.specs.Prelude.{◌≡◌, ◌↔◌, IfSome, IsSome, IsTrue};
ghost use Rattle.sheet.specs.Sheet.{ExactSheet, IsLength, IsSheet, square};

use std::marker::Model;

/// The sheet of paper: the rectangle from (0, 0) to (w, h), where both are whole numbers from 1 to 8.
#[derive(Clone, Copy, Debug, PartialEq, Eq, PartialOrd, Ord, Hash)]
pub struct Sheet {
    w: u8,
    h: u8,
}

impl Model for Sheet {
    ghost use Rattle.sheet.specs.Sheet.{ExactSheet, IsSheet};

    ghost Value = { ExactSheet };

    ghost view = { λ s. record { w = s.w; h = s.h } };

    ghost invariant = { λ s. IsSheet (record { w = s.w; h = s.h }) };

    ghost inverse = { λ v. record { w = v.w; h = v.h } };
}

impl Sheet {
    /// The sheet of this width and this height, or None exactly where one of them is outside 1 to 8.
    pub fn new(w: u8, h: u8) -> Option<Sheet>
        ensures some { IfSome result (λ sheet. sheet ≡ record { w = w; h = h }) }
        ensures exactly { IsSome result
            ↔ (let sheet : ExactSheet = record { w = w; h = h } in IsSheet sheet) }
    {
        if is_length(w) && is_length(h) {
            Some(Sheet { w, h })
        } else {
            None
        }
    }

    /// The sheet of width 1 and height 1.
    pub fn square() -> Sheet
        ensures { result ≡ square }
    {
        Sheet { w: 1, h: 1 }
    }

    /// The width, from 1 to 8.
    pub fn w(&self) -> u8
        ensures width { result ≡ self.now.w }
        ensures sheet { IsSheet self.now }
    {
        self.w
    }

    /// The height, from 1 to 8.
    pub fn h(&self) -> u8
        ensures height { result ≡ self.now.h }
        ensures sheet { IsSheet self.now }
    {
        self.h
    }
}

/// Whether a number can be a width or a height.
fn is_length(n: u8) -> bool
    ensures { IsTrue result ↔ IsLength n }
{
    (1..=8).contains(&n)
}
