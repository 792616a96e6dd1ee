//! A vector that contracts see as its list.
ghost use Rattle.std.specs.Prelude.{◌≡◌, List};

use std::marker::Model;

/// A vector that contracts see as the list of its elements.
#[derive(Drop)]
pub struct Listed<T> {
    items: Vec<T>,
}

impl<T> Model for Listed<T> {
    ghost Value = { List T };

    ghost view = { λ s. s.items.items };
}

impl<T> Listed<T> {
    /// The vector's elements.
    pub fn new(items: Vec<T>) -> Listed<T>
        ensures { result ≡ items.items }
    {
        Listed { items }
    }

    /// The elements, lent.
    pub fn as_slice(&self) -> &[T]
        ensures { result.now ≡ self.now }
    {
        self.items.as_slice()
    }

    /// The vector back.
    pub fn into_vec(self) -> Vec<T>
        ensures { result.items ≡ self }
    {
        self.items
    }
}
