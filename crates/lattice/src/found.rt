//! The two least of the values that were seen.
ghost use Rattle.lattice.specs.Found.{Inserts, IsOrder};

use crate::side::difference_sign;
use qroot2::Sign;

/// The number ((whole - k) + (root - k) √2)/d, for the d and k of a lattice.
#[derive(Clone, Copy)]
pub(crate) struct Numerators {
    pub whole: u64,
    pub root: u64,
}

/// None, the one, or the two least of some numbers.
#[derive(Clone, Copy)]
pub(crate) enum Found {
    Nothing,
    One(Numerators),
    Two(Numerators, Numerators),
}

/// The same with one more number.
pub(crate) fn with(found: Found, pair: Numerators) -> Found
    ensures { Inserts found pair result }
{
    match found {
        Found::Nothing => Found::One(pair),
        Found::One(first) => with_one(first, pair),
        Found::Two(first, second) => with_two(first, second, pair),
    }
}

fn with_one(first: Numerators, pair: Numerators) -> Found
    ensures { Inserts (Found.One first) pair result }
{
    match order(pair, first) {
        Sign::Minus => Found::Two(pair, first),
        Sign::Zero => Found::One(first),
        Sign::Plus => Found::Two(first, pair),
    }
}

fn with_two(first: Numerators, second: Numerators, pair: Numerators) -> Found
    ensures { Inserts (Found.Two first second) pair result }
{
    match order(pair, first) {
        Sign::Minus => Found::Two(pair, first),
        Sign::Zero => Found::Two(first, second),
        Sign::Plus => match order(pair, second) {
            Sign::Minus => Found::Two(first, pair),
            Sign::Zero => Found::Two(first, second),
            Sign::Plus => Found::Two(first, second),
        },
    }
}

/// The side of zero of the first less the second.
fn order(x: Numerators, y: Numerators) -> Sign
    ensures { IsOrder x y result }
{
    difference_sign(x.whole, y.whole, x.root, y.root)
}
