//! Lowest terms: three numbers divided by their greatest common divisor.
ghost use Rattle.std.specs.Prelude.{◌≡◌, ℕ, ◌<◌, ◌≤◌, ◌^◌, ◌%◌};
ghost use Rattle.std.specs.Int.{IsGcd, ◌∣◌};
ghost use Rattle.qroot2.specs.Num.{Reduces, AreEven, signed};

/// The size, with the sign of a number.
pub fn with_sign(of: i128, size: u128) -> i64
    requires { size ≤ 2 ^ 48 }
    ensures { result ≡ signed of size }
{
    if of < 0 { -(size as i64) } else { size as i64 }
}

/// The three in lowest terms. Nothing is divided where d is 1 or no divisor is common, and all is done in
/// 64 bits where these hold the three.
pub fn lowest(a: u128, b: u128, d: u128) -> (u128, u128, u128)
    requires { 0 < d }
    ensures { Reduces a b d result.0 result.1 result.2 }
{
    if d == 1 {
        return (a, b, d);
    }
    if a < 1 << 64 && b < 1 << 64 && d < 1 << 64 {
        let (x, y, z) = narrow_lowest(a as u64, b as u64, d as u64);
        return (u128::from(x), u128::from(y), u128::from(z));
    }
    // The denominator is the smallest of the three, so it comes first.
    let g = gcd(b, gcd(a, d));
    if g == 1 {
        return (a, b, d);
    }
    (a / g, b / g, d / g)
}

/// The same of three numbers of 64 bits. Where the denominator is a power of two, nothing is
/// divided but by two.
fn narrow_lowest(a: u64, b: u64, d: u64) -> (u64, u64, u64)
    requires { 0 < d }
    ensures { Reduces a b d result.0 result.1 result.2 }
{
    let (x, y, z) = without_twos(a, b, d);
    let g = narrow_gcd(y, narrow_gcd(x, odd_part(z)));
    if g == 1 {
        return (x, y, z);
    }
    (x / g, y / g, z / g)
}

/// The three without the factors of two that all of them have.
fn without_twos(a: u64, b: u64, d: u64) -> (u64, u64, u64)
    requires { 0 < d }
    ensures above { 0 < result.2 }
    ensures odd { ¬ AreEven result.0 result.1 result.2 }
    ensures same { (x y z : ℕ) → Reduces result.0 result.1 result.2 x y z → Reduces a b d x y z }
{
    let mut x = a;
    let mut y = b;
    let mut z = d;
    while x % 2 == 0 && y % 2 == 0 && z % 2 == 0 {
        x /= 2;
        y /= 2;
        z /= 2;
    }
    (x, y, z)
}

/// A number without its factors of two.
fn odd_part(d: u64) -> u64
    requires { 0 < d }
    ensures divides { result ∣ d }
    ensures odd { (n : ℕ) → n % 2 ≡ 1 → n ∣ d → n ∣ result }
{
    let mut z = d;
    while z % 2 == 0 {
        z /= 2;
    }
    z
}

/// The greatest common divisor, in 64 bits as soon as these hold both.
fn gcd(a: u128, b: u128) -> u128
    ensures { IsGcd a b result }
{
    let mut x = a;
    let mut y = b;
    while y != 0 {
        if x < 1 << 64 && y < 1 << 64 {
            return u128::from(narrow_gcd(x as u64, y as u64));
        }
        let rest = x % y;
        x = y;
        y = rest;
    }
    x
}

/// The greatest common divisor of numbers of 64 bits. The last step, which divides by 1, is not taken.
fn narrow_gcd(a: u64, b: u64) -> u64
    ensures { IsGcd a b result }
{
    let mut x = a;
    let mut y = b;
    while y > 1 {
        let rest = x % y;
        x = y;
        y = rest;
    }
    if y == 1 { 1 } else { x }
}
