//! Stars with known layer orders.
use crate::{Mark, Order, Ray, Star, is_order, sectors};
use arrayvec::ArrayVec;
use qroot2::Dir;
use std::process::Abort;

/// Rays with these direction numbers and marks.
fn rays(rt: &impl Abort, rays: &[(u8, Mark)]) -> ArrayVec<Ray, 17> {
    let mut list: ArrayVec<Ray, 17> = ArrayVec::new();
    for (number, mark) in rays {
        assert!(rt; list.len() < 17);
        let dir = Dir::new(*number).expect(rt, "a direction");
        list.push(Ray { dir, mark: *mark });
    }
    list
}

fn star(rt: &impl Abort, list: &[(u8, Mark)]) -> Star {
    Star::new(rays(rt, list).as_slice()).expect(rt, "a star")
}

fn order(rt: &impl Abort, numbers: &[u8]) -> Order {
    Order::new(numbers).expect(rt, "an order")
}

// Four creases in the diagonals of the sheet, one a valley: of all lists of four numbers below
// four, one is a layer order.
#[test]
fn four_half_diagonals_have_one_order(rt: HostRuntime) {
    let star = star(
        &rt,
        &[(2, Mark::M), (6, Mark::M), (10, Mark::M), (14, Mark::V)],
    );
    let sectors = sectors(&star);
    for a in 0..4 {
        for b in 0..4 {
            for c in 0..4 {
                for d in 0..4 {
                    let expected = a == 1 && b == 2 && c == 3 && d == 0;
                    assert_eq!(rt; is_order(&sectors, &order(&rt, &[a, b, c, d])), expected);
                }
            }
        }
    }
}

// The four creases at the incentre of a right isosceles triangle.
#[test]
fn a_rabbit_ear_has_a_layer_order(rt: HostRuntime) {
    let star = star(
        &rt,
        &[(5, Mark::M), (10, Mark::M), (12, Mark::V), (15, Mark::M)],
    );
    let sectors = sectors(&star);
    let list = sectors.list();
    assert_eq!(rt; list.len(), 4);
    for (i, angle) in [5, 2, 3, 6].iter().enumerate() {
        assert_eq!(rt; list[i].angle, *angle);
    }
    assert_eq!(rt; list[3].first.number(), 15);
    assert!(rt; sectors.closes_up());
    assert!(rt; is_order(&sectors, &order(&rt, &[3, 2, 1, 0])));
    assert!(rt; !is_order(&sectors, &order(&rt, &[0, 1, 2, 3])));
}

// One ray has the full turn for its sector, and no layer order. Directions that do not ascend make no star.
#[test]
fn one_ray_has_no_layer_order(rt: HostRuntime) {
    let one = star(&rt, &[(7, Mark::V)]);
    assert_eq!(rt; one.rays().len(), 1);
    let sectors = sectors(&one);
    assert_eq!(rt; sectors.list().len(), 1);
    assert_eq!(rt; sectors.list()[0].angle, 16);
    assert!(rt; !is_order(&sectors, &order(&rt, &[0])));
    let twice = rays(&rt, &[(7, Mark::V), (7, Mark::M)]);
    assert!(rt; Star::new(twice.as_slice()).is_none());
    assert!(rt; Order::new(&[0; 17]).is_none());
    assert_eq!(rt; order(&rt, &[4, 4]).numbers(), [4, 4].as_slice());
}
