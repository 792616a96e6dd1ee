//! Calls that are counted, some of which fail by their numbers.
ghost use Rattle.std.specs.Prelude.{◌≡◌, ◌↔◌, Contains, IsTrue};
ghost use Rattle.ports.specs.Memory.{counted};

use std::marker::Model;

/// Which calls fail, by their numbers, and how many were made. The count is wider than the numbers, so
/// it never stands still at one of them.
#[derive(Drop)]
pub struct Calls {
    fail: Vec<u64>,
    made: u128,
}

impl Model for Calls {
    ghost use Rattle.ports.specs.Memory.{CallsState};

    ghost Value = { CallsState };

    ghost view = { λ s. record { fail = s.fail.items; made = s.made } };
}

impl Calls {
    /// No call was made, and exactly those will fail whose numbers, counted from 1, are in `fail`.
    pub fn new(fail: Vec<u64>) -> Calls
        ensures { result ≡ record { fail = fail.items; made = 0 } }
    {
        Calls { fail, made: 0 }
    }

    /// Counts a call, and tells whether it is one that fails.
    pub fn next_fails(&mut self) -> bool
        ensures stays { self.new.fail ≡ self.old.fail }
        ensures counted { self.new.made ≡ counted self.old.made }
        ensures fails { IsTrue result ↔ Contains self.old.fail (counted self.old.made) }
    {
        self.made = self.made.saturating_add(1);
        let call = self.made;
        self.fail.iter().any(|number| u128::from(*number) == call)
    }
}
