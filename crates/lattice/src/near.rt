//! The near values of a decimal.
ghost use Rattle.std.specs.Prelude.{◌≡◌, ◌≤◌, ◌^◌, ◌*◌, ◌⊎◌, pos, ◌+ℤ◌, ◌<ℤ◌, IfSome, IfNone, unsigned_abs};
ghost use Rattle.exact.specs.Number.{Same};
ghost use Rattle.lattice.specs.Near.{IsAnswer, IsAnswerOf};
ghost use Rattle.lattice.specs.Search.{IsWindow, IsSeen, IsSeenValue};
ghost use Rattle.lattice.specs.Found.{value_of, Holds};

use crate::Lattice;
use crate::found::{Found, Numerators};
use crate::search::{Window, search};
use qroot2::Num;

/// The lattice values that are near a decimal: none, the one, or the two least of two and more.
#[derive(Clone, Copy, Debug, PartialEq, Eq)]
pub enum Near {
    Nothing,
    One(Num),
    Two { first: Num, second: Num },
}

/// The near values on an axis of length m of the decimal of so many units of 10^-12.
pub fn near_value(lattice: &Lattice, m: u64, units: i128) -> Near
    requires m { m ≤ 8 }
    requires units { unsigned_abs units ≤ 2 ^ 100 }
    ensures { IsAnswer lattice.now m units result }
{
    let d = u64::from(lattice.d());
    let k = u64::from(lattice.k());
    let tolerance = u64::from(lattice.tol()) * 1_000_000;
    match reach_of(units, tolerance) {
        None => Near::Nothing,
        Some(reach) => {
            let window = Window {
                d,
                k,
                spread: d * tolerance,
                reach,
            };
            named(window, m, search(window, m))
        }
    }
}

/// How far above the low end of the axis the decimal and its tolerance reach, where that can be near
/// a value.
fn reach_of(units: i128, tolerance: u64) -> Option<u64>
    requires units { unsigned_abs units ≤ 2 ^ 100 }
    requires tolerance { tolerance ≤ 100000000000 }
    ensures some { IfSome result
        (λ r. (pos r ≡ (units +ℤ pos tolerance) +ℤ pos 200000000000000) × (r ≤ 3600000000000000)) }
    ensures none { IfNone result
        (((units +ℤ pos tolerance) +ℤ pos 200000000000000) <ℤ pos 0
        ⊎ (pos 3600000000000000 <ℤ ((units +ℤ pos tolerance) +ℤ pos 200000000000000))) }
{
    let reach = units + i128::from(tolerance) + 200_000_000_000_000;
    if 0 <= reach && reach <= 3_600_000_000_000_000 {
        Some(reach as u64)
    } else {
        None
    }
}

/// What was found, as numbers.
fn named(window: Window, m: u64, found: Found) -> Near
    requires window { IsWindow window }
    requires m { m ≤ 8 }
    requires seen { Holds (IsSeen window m 0) found }
    ensures { IsAnswerOf (IsSeenValue window m) result }
{
    match found {
        Found::Nothing => Near::Nothing,
        Found::One(pair) => Near::One(number(pair, window.d, window.k)),
        Found::Two(first, second) => Near::Two {
            first: number(first, window.d, window.k),
            second: number(second, window.d, window.k),
        },
    }
}

/// The number of a pair.
fn number(pair: Numerators, d: u64, k: u64) -> Num
    requires pair { (pair.whole ≤ 2 ^ 20) × (pair.root ≤ 2 ^ 20) }
    requires d { (1 ≤ d) × (d ≤ 2 ^ 20) }
    requires k { k ≤ 2 ^ 20 }
    ensures { Same result (value_of d k pair.whole pair.root) }
{
    Num::new(
        i128::from(pair.whole) - i128::from(k),
        i128::from(pair.root) - i128::from(k),
        i128::from(d),
    )
    .unwrap()
}
