//! The order of the folded sectors.
ghost use Rattle.std.specs.Prelude.{◌≡◌, ◌≤◌, ◌↔◌, length, IsSome, IfSome};

use arrayvec::ArrayVec;
use std::marker::Model;

/// A list of at most sixteen sector numbers, from the bottom to the top.
#[derive(Drop)]
pub struct Order {
    numbers: ArrayVec<u8, 16>,
}

impl Model for Order {
    ghost use Rattle.std.specs.Prelude.{List, ℕ, length, ◌≤◌};

    ghost Value = { List ℕ };

    ghost view = { λ s. s.numbers.items };

    ghost invariant = { λ s. length s.numbers.items ≤ 16 };
}

impl Order {
    /// The order with these numbers, or None where there are more than sixteen.
    pub fn new(numbers: &[u8]) -> Option<Order>
        ensures few { IsSome result ↔ (length numbers.now ≤ 16) }
        ensures same { IfSome result (λ order. order ≡ numbers.now) }
    {
        if numbers.len() > 16 {
            return None;
        }
        let mut kept = ArrayVec::new();
        for number in numbers {
            kept.push(*number);
        }
        Some(Order { numbers: kept })
    }

    /// The sector numbers, from the bottom to the top.
    pub fn numbers(&self) -> &[u8]
        ensures value { result.now ≡ self.now }
        ensures few { length self.now ≤ 16 }
    {
        self.numbers.as_slice()
    }
}
