//! Whole numbers on the way to a result: one operation each, none of which leaves 128 bits.
ghost use Rattle.std.specs.Prelude.{◌≡◌, pos, ◌+◌, ◌*◌, ◌<◌, ◌≤◌, ◌^◌, unsigned_abs, ◌<ℤ◌, ◌*ℤ◌, ◌-ℤ◌, ◌+ℤ◌};

/// The product of a numerator and a denominator.
pub fn scaled(x: i64, d: u32) -> i128
    requires x { unsigned_abs x ≤ 2 ^ 48 }
    requires d { d ≤ 2 ^ 20 }
    ensures value { result ≡ x *ℤ pos d }
    ensures bound { unsigned_abs result ≤ 2 ^ 68 }
{
    i128::from(x) * i128::from(d)
}

/// The product of two numerators.
pub fn times(x: i64, y: i64) -> i128
    requires x { unsigned_abs x ≤ 2 ^ 48 }
    requires y { unsigned_abs y ≤ 2 ^ 48 }
    ensures value { result ≡ x *ℤ y }
    ensures bound { unsigned_abs result ≤ 2 ^ 96 }
{
    i128::from(x) * i128::from(y)
}

/// The product of two denominators.
pub fn product(d: u32, e: u32) -> i128
    requires d { (0 < d) × (d ≤ 2 ^ 20) }
    requires e { (0 < e) × (e ≤ 2 ^ 20) }
    ensures value { result ≡ pos (d * e) }
    ensures bound { unsigned_abs result ≤ 2 ^ 120 }
    ensures above { pos 0 <ℤ result }
{
    i128::from(d) * i128::from(e)
}

pub fn plus(x: i128, y: i128) -> i128
    requires { unsigned_abs x + unsigned_abs y ≤ 2 ^ 120 }
    ensures value { result ≡ x +ℤ y }
    ensures bound { unsigned_abs result ≤ unsigned_abs x + unsigned_abs y }
    ensures limit { unsigned_abs result ≤ 2 ^ 120 }
{
    x + y
}

/// x e - y d.
pub fn cross(x: i64, y: i64, d: u32, e: u32) -> i128
    requires x { unsigned_abs x ≤ 2 ^ 48 }
    requires y { unsigned_abs y ≤ 2 ^ 48 }
    requires d { d ≤ 2 ^ 20 }
    requires e { e ≤ 2 ^ 20 }
    ensures value { result ≡ x *ℤ pos e -ℤ y *ℤ pos d }
    ensures bound { unsigned_abs result ≤ 2 ^ 120 }
{
    scaled(x, e) - scaled(y, d)
}

/// The same in 64 bits, for small denominators.
pub fn narrow_cross(x: i64, y: i64, d: u32, e: u32) -> i64
    requires x { unsigned_abs x ≤ 2 ^ 48 }
    requires y { unsigned_abs y ≤ 2 ^ 48 }
    requires d { d < 2 ^ 13 }
    requires e { e < 2 ^ 13 }
    ensures value { result ≡ x *ℤ pos e -ℤ y *ℤ pos d }
    ensures bound { unsigned_abs result < 2 ^ 62 }
{
    narrow_scaled(x, e) - narrow_scaled(y, d)
}

fn narrow_scaled(x: i64, d: u32) -> i64
    requires x { unsigned_abs x ≤ 2 ^ 48 }
    requires d { d < 2 ^ 13 }
    ensures value { result ≡ x *ℤ pos d }
    ensures bound { unsigned_abs result < 2 ^ 61 }
{
    x * i64::from(d)
}
