//! Sums of angles and numbers of marks, at most sixteen of each.
ghost use Rattle.std.specs.Prelude.{◌≡◌, ◌<◌, ◌≤◌, ℕ, length};
ghost use Rattle.layers.specs.Star.{mountains as mountains_of, valleys as valleys_of};
ghost use Rattle.layers.specs.Sectors.{sector_at};
ghost use Rattle.judge.specs.Conditions.{angle_sum as angle_sum_of};

use layers::{Mark, Ray, Sector};

/// The sum of the angles of the sectors whose numbers leave this rest when they are divided by 2.
pub(crate) fn angle_sum(sectors: &[Sector], rest: usize) -> u8
    requires few { length sectors.now ≤ 16 }
    requires angles { (i : ℕ) → i < length sectors.now → (sector_at sectors.now i).angle ≤ 16 }
    requires rest { rest < 2 }
    ensures { result ≡ angle_sum_of rest sectors.now }
{
    let mut sum = 0;
    for (i, sector) in sectors.iter().enumerate() {
        if i % 2 == rest {
            sum += sector.angle;
        }
    }
    sum
}

/// How many rays are mountains.
pub(crate) fn mountains(rays: &[Ray]) -> u8
    requires { length rays.now ≤ 16 }
    ensures { result ≡ mountains_of rays.now }
{
    rays.iter()
        .filter(|ray| matches!(ray.mark, Mark::M))
        .count() as u8
}

/// How many rays are valleys.
pub(crate) fn valleys(rays: &[Ray]) -> u8
    requires { length rays.now ≤ 16 }
    ensures { result ≡ valleys_of rays.now }
{
    rays.iter()
        .filter(|ray| matches!(ray.mark, Mark::V))
        .count() as u8
}
