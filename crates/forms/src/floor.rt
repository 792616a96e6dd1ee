//! The mark of a point: the whole part of a multiple of its form.
ghost use Rattle.std.specs.Prelude.{◌≡◌, ◌<◌, ◌≤◌, ◌^◌};
ghost use Rattle.exact.specs.Plane.{ExactPoint};
ghost use Rattle.geometry.specs.Root.{size};
ghost use Rattle.plane.specs.Ways.{root, IsAhead};
ghost use Rattle.forms.specs.Forms.{IsLifted};
ghost use Rattle.forms.specs.Marks.{IsMark, nearest};

use crate::lifted::Lifted;

/// The mark of a point by its lifted coordinates.
pub(crate) fn mark_of(scale: u64, dir: u8, lifted: &Lifted) -> i32
    requires scale { scale ≤ 2 ^ 32 }
    requires ahead { IsAhead dir }
    requires weight { 0 < lifted.now.weight }
    requires x { size (root lifted.now.x) ≤ 2 ^ 69 }
    requires y { size (root lifted.now.y) ≤ 2 ^ 69 }
    ensures { (p : ExactPoint) → IsLifted p lifted.now.x lifted.now.y lifted.now.weight
        → IsMark scale dir p result }
{
    let weight = lifted.weight;
    narrowed(lifted.form(dir).floor_over(scale, weight))
}

/// The number of 32 bits that is nearest to a whole number.
fn narrowed(whole: i128) -> i32
    ensures { result ≡ nearest whole }
{
    whole.min(i128::from(i32::MAX)).max(i128::from(i32::MIN)) as i32
}
