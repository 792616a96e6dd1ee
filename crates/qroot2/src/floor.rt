//! Whole parts of multiples of numbers, found without a root.
ghost use Rattle.std.specs.Prelude.{◌≡◌, pos, ◌+◌, ◌*◌, ◌<◌, ◌≤◌, ◌^◌, unsigned_abs, ◌+ℤ◌, ◌*ℤ◌, ◌≤ℤ◌, ◌<ℤ◌};
ghost use Rattle.std.specs.Prelude.{IfSome};
ghost use Rattle.exact.specs.Number.{whole, mul};
ghost use Rattle.exact.specs.Floor.{IsFloor};
ghost use Rattle.qroot2.specs.Root.{IsRootOf, IsRootPart};

use crate::{Num, Wide};

impl Num {
    /// The whole k with k ≤ n·self < k + 1. The factor n is at most 400·10^12.
    pub fn floor_scaled(&self, n: u64) -> i128
        requires { n ≤ 400000000000000 }
        ensures { IsFloor (mul (whole n) self.now) result }
    {
        let (a, b) = (i128::from(self.a()), i128::from(self.b()));
        floor_of(n, a, b, self.d().unsigned_abs())
    }
}

impl Wide {
    /// The whole k with k ≤ n (a + b √2) / d < k + 1.
    pub fn floor_over(self, n: u64, d: u64) -> i128
        requires a { n * unsigned_abs self.a ≤ 2 ^ 104 }
        requires b { n * unsigned_abs self.b ≤ 2 ^ 104 }
        requires d { 0 < d }
        ensures { IsFloor (mul (whole n) (record { a = self.a; b = self.b; d = d })) result }
    {
        floor_of(n, self.a(), self.b(), d)
    }
}

/// The whole k with k ≤ n (a + b √2) / d < k + 1.
fn floor_of(n: u64, a: i128, b: i128, d: u64) -> i128
    requires a { n * unsigned_abs a ≤ 2 ^ 104 }
    requires b { n * unsigned_abs b ≤ 2 ^ 104 }
    requires d { 0 < d }
    ensures { IsFloor (mul (whole n) (record { a = a; b = b; d = d })) result }
{
    quotient(multiple(n, a) + root_part(n, b), d)
}

/// n a.
fn multiple(n: u64, a: i128) -> i128
    requires { n * unsigned_abs a ≤ 2 ^ 104 }
    ensures value { result ≡ pos n *ℤ a }
    ensures bound { unsigned_abs result ≤ 2 ^ 104 }
{
    i128::from(n) * a
}

/// The whole part of n b √2, which is a whole number only where it is 0.
fn root_part(n: u64, b: i128) -> i128
    requires { n * unsigned_abs b ≤ 2 ^ 104 }
    ensures value { IsRootPart (pos n *ℤ b) result }
    ensures bound { unsigned_abs result ≤ 2 ^ 106 }
{
    let root = root_of(u128::from(n) * b.unsigned_abs());
    let size = root.whole as i128;
    if b >= 0 || n == 0 { size } else { -size - 1 }
}

/// A quotient rounded down, taken in 64 bits where these hold what is divided.
fn quotient(x: i128, d: u64) -> i128
    requires x { unsigned_abs x ≤ 2 ^ 107 }
    requires d { 0 < d }
    ensures below { (result *ℤ pos d) ≤ℤ x }
    ensures above { x <ℤ ((result +ℤ pos 1) *ℤ pos d) }
{
    if x.unsigned_abs() < 1 << 62 && d < 1 << 62 {
        i128::from((x as i64).div_euclid(d as i64))
    } else {
        x.div_euclid(i128::from(d))
    }
}

/// A whole number, and what its square lacks.
#[derive(Clone, Copy)]
struct Root {
    whole: u128,
    rest: u128,
}

/// The whole part of b √2: guessed, or from that of half of b.
fn root_of(b: u128) -> Root
    requires { b ≤ 2 ^ 104 }
    ensures root { IsRootOf b result.whole result.rest }
    ensures bound { result.whole ≤ 2 ^ 105 }
{
    if b == 0 {
        return Root { whole: 0, rest: 0 };
    }
    if let Some(root) = guessed(b) {
        return root;
    }
    let half = root_of(b / 2);
    let more = if b % 2 == 1 { 8 * (b / 2) + 2 } else { 0 };
    let doubled = Root {
        whole: 2 * half.whole,
        rest: 4 * half.rest + more,
    };
    raised(raised(raised(doubled)))
}

/// The whole part of √2 times 2^62.
const ROOT: u128 = 0x5A82_7999_FCEF_3242;

/// The whole part of b √2 by one multiplication. Its square shows whether it is right; a number too
/// large to be squared gives None.
fn guessed(b: u128) -> Option<Root>
    ensures { IfSome result (λ root. IsRootOf b root.whole root.rest × (root.whole ≤ 2 ^ 105)) }
{
    if b >= 1 << 62 {
        return None;
    }
    let guess = (b * ROOT) >> 62;
    let (square, twice) = (guess * guess, 2 * b * b);
    if square > twice {
        return None;
    }
    let root = raised(Root {
        whole: guess,
        rest: twice - square,
    });
    if root.rest > 2 * root.whole {
        return None;
    }
    Some(root)
}

/// The whole number raised by 1, where the rest leaves room for it.
fn raised(root: Root) -> Root
    requires whole { root.whole ≤ 2 ^ 108 }
    requires rest { root.rest ≤ 2 ^ 126 }
    ensures square { result.whole * result.whole + result.rest ≡ root.whole * root.whole + root.rest }
    ensures whole { result.whole ≤ root.whole + 1 }
    ensures rest { result.rest ≤ root.rest }
    ensures eight { root.rest ≤ 8 * root.whole + 2 → result.rest ≤ 6 * result.whole + 2 }
    ensures six { root.rest ≤ 6 * root.whole + 2 → result.rest ≤ 4 * result.whole + 2 }
    ensures four { root.rest ≤ 4 * root.whole + 2 → result.rest ≤ 2 * result.whole }
{
    if root.rest > 2 * root.whole {
        Root {
            whole: root.whole + 1,
            rest: root.rest - 2 * root.whole - 1,
        }
    } else {
        root
    }
}
