//! The values of the lattice that are near, for each b at most one a.
ghost use Rattle.std.specs.Prelude.{◌≡◌, ℕ, ◌≤◌, ◌<◌, ◌+◌, ◌*◌, IfSome, IfNone, IsTrue, ◌↔◌};
ghost use Rattle.lattice.specs.Search.{IsWindow, Fits, IsSeen};
ghost use Rattle.lattice.specs.Found.{Holds};

use crate::found::{Found, Numerators, with};
use crate::side::is_not_below;

/// Units of 10^-12 in one unit of the sheet.
const UNIT: u64 = 400_000_000_000_000;

/// The whole part of UNIT √2.
const ROOT: u64 = 565_685_424_949_238;

/// The most by which a multiple of ROOT by at most k differs from that of UNIT √2.
const SLACK: u64 = 1024;

/// A lattice, and where to search on it: the numbers u with UNIT·d·u from d·reach - 2·spread to
/// d·reach.
#[derive(Clone, Copy)]
pub(crate) struct Window {
    pub d: u64,
    pub k: u64,
    pub spread: u64,
    pub reach: u64,
}

/// Whether n + ((i - k) + (j - k) √2)/d is a near value of the lattice.
fn fits(window: Window, n: u64, i: u64, j: u64) -> bool
    requires window { IsWindow window }
    requires n { n < 8 }
    requires i { i ≤ 2 * window.k }
    requires j { j ≤ 2 * window.k }
    ensures { IsTrue result ↔ Fits window n i j }
{
    let Window {
        d,
        k,
        spread,
        reach,
    } = window;
    is_not_below(i, k, j, k)
        && is_not_below(d + k, i, k, j)
        && is_not_below(
            UNIT * (n * d + i) + 2 * spread,
            UNIT * k + d * reach,
            UNIT * j,
            UNIT * k,
        )
        && is_not_below(d * reach + UNIT * k, UNIT * (n * d + i), UNIT * k, UNIT * j)
}

/// The one i of a near value at n and j.
fn candidate(window: Window, n: u64, j: u64) -> Option<u64>
    requires window { IsWindow window }
    requires n { n < 8 }
    requires j { j ≤ 2 * window.k }
    ensures some { IfSome result (λ i. Fits window n i j × ((q : ℕ) → Fits window n q j → q ≡ i)) }
    ensures none { IfNone result ((q : ℕ) → Fits window n q j → ⊥) }
{
    let have = window.d * window.reach + SLACK + window.k * (UNIT + ROOT);
    let need = j * ROOT + n * window.d * UNIT;
    if have < need {
        return None;
    }
    let i = (have - need) / UNIT;
    if i > 2 * window.k || (have - need) % UNIT > 2 * window.spread + 2 * SLACK {
        return None;
    }
    if fits(window, n, i, j) { Some(i) } else { None }
}

/// One more j.
fn step(window: Window, n: u64, j: u64, found: Found) -> Found
    requires window { IsWindow window }
    requires n { n < 8 }
    requires j { j ≤ 2 * window.k }
    requires seen { Holds (IsSeen window n j) found }
    ensures { Holds (IsSeen window n (j + 1)) result }
{
    match candidate(window, n, j) {
        Some(i) => with(
            found,
            Numerators {
                whole: n * window.d + i,
                root: j,
            },
        ),
        None => found,
    }
}

/// One more n.
fn scan(window: Window, n: u64, found: Found) -> Found
    requires window { IsWindow window }
    requires n { n < 8 }
    requires seen { Holds (IsSeen window n 0) found }
    ensures { Holds (IsSeen window (n + 1) 0) result }
{
    let mut found = found;
    for j in 0..2 * window.k + 1 {
        found = step(window, n, j, found);
    }
    found
}

/// One more n, which is passed over where none of its values can be near.
fn field(window: Window, n: u64, found: Found) -> Found
    requires window { IsWindow window }
    requires n { n < 8 }
    requires seen { Holds (IsSeen window n 0) found }
    ensures { Holds (IsSeen window (n + 1) 0) result }
{
    let at = window.d * window.reach;
    if at < window.d * (n * UNIT) || window.d * ((n + 1) * UNIT) + 2 * window.spread < at {
        return found;
    }
    scan(window, n, found)
}

/// The near values with n below m.
pub(crate) fn search(window: Window, m: u64) -> Found
    requires window { IsWindow window }
    requires m { m ≤ 8 }
    ensures { Holds (IsSeen window m 0) result }
{
    let mut found = Found::Nothing;
    for n in 0..m {
        found = field(window, n, found);
    }
    found
}
