//! Three creases on one line and one on another, worked by hand.
use crate::{Crease, CreaseMap};
use plane::{Point, Seg, read_point};
use sheet::Colour;
use std::alloc::Global;
use std::process::Abort;
use std::test::Fail;

fn point(rt: &impl Abort, text: &str) -> Point {
    read_point(text.as_bytes()).ok().expect(rt, "a point")
}

fn seg(rt: &impl Abort, from: &str, to: &str) -> Seg {
    Seg::new(point(rt, from), point(rt, to))
        .ok()
        .expect(rt, "a segment")
}

fn crease(rt: &impl Abort, colour: Colour, from: &str, to: &str) -> Crease {
    Crease {
        seg: seg(rt, from, to),
        colour,
    }
}

/// Puts in a crease if it overlaps none, and says whether it did.
fn put_where_free(map: &mut CreaseMap, crease: Crease) -> Result<bool, Fail> {
    if !map.is_free(&crease.seg) {
        return Ok(false);
    }
    map.put(crease)?;
    Ok(true)
}

/// Whether just these creases of the map overlap a segment, in this order.
fn overlap(alloc: Global, map: &CreaseMap, seg: &Seg, wanted: &[Crease]) -> Result<bool, Fail> {
    let found: Vec<Crease> = map.overlapping(seg).collect(alloc)?;
    Ok(found.as_slice() == wanted && map.is_free(seg) == wanted.is_empty())
}

/// Whether these are the creases of the map, in this order.
fn are(alloc: Global, map: &CreaseMap, wanted: &[Crease]) -> Result<bool, Fail> {
    let creases: Vec<Crease> = map.creases().collect(alloc)?;
    Ok(creases.as_slice() == wanted)
}

/// From the left side, at half the height: a mountain and a valley that touch, a gap and a mountain.
fn level(rt: &impl Abort) -> [Crease; 3] {
    [
        crease(rt, Colour::M, "0,1/2", "1/4,1/2"),
        crease(rt, Colour::V, "1/4,1/2", "1/2,1/2"),
        crease(rt, Colour::M, "3/4,1/2", "1,1/2"),
    ]
}

/// The line from the corner at the origin that rises by 22.5 degrees.
fn rising(rt: &impl Abort) -> Crease {
    crease(rt, Colour::A, "0,0", "1,-1+1r")
}

/// These four, put in from the right to the left.
fn four(rt: &impl Abort, alloc: Global) -> Result<CreaseMap, Fail> {
    let [first, second, third] = level(rt);
    let mut map = CreaseMap::new(alloc);
    for crease in [third, second, rising(rt), first] {
        let put = map.put_if_free(crease)?;
        assert!(rt; put);
    }
    Ok(map)
}

#[test]
fn creases_of_a_line_are_found(rt: HostRuntime) -> Result<(), Fail> {
    let alloc = rt.alloc();
    let map = four(&rt, alloc)?;
    let [first, second, third] = level(&rt);
    assert!(rt; map.len() == 4 && map.has(&second));

    let wide = seg(&rt, "1/8,1/2", "7/8,1/2");
    assert!(rt; overlap(alloc, &map, &wide, &[first, second, third])?);
    let within = seg(&rt, "5/16,1/2", "7/16,1/2");
    assert!(rt; overlap(alloc, &map, &within, &[second])?);
    // Between two creases, it only touches their ends.
    let gap = seg(&rt, "1/2,1/2", "3/4,1/2");
    assert!(rt; overlap(alloc, &map, &gap, &[])?);
    // It crosses one crease and touches others, and is on no line of theirs.
    let crossing = seg(&rt, "1/4,1/4", "3/4,3/4");
    assert!(rt; overlap(alloc, &map, &crossing, &[])?);
    // From the point at x = √2 - 1 of the line that rises, to its end.
    let part = seg(&rt, "-1+1r,3-2r", "1,-1+1r");
    assert!(rt; overlap(alloc, &map, &part, &[rising(&rt)])?);
    Ok(())
}

#[test]
fn creases_come_and_go(rt: HostRuntime) -> Result<(), Fail> {
    let alloc = rt.alloc();
    let mut map = four(&rt, alloc)?;
    let [first, second, third] = level(&rt);
    let wide = crease(&rt, Colour::V, "1/8,1/2", "7/8,1/2");
    let put = map.put_if_free(wide)?;
    assert!(rt; !put && map.len() == 4);

    // A valley is on that segment, and no mountain.
    let other = Crease {
        seg: second.seg,
        colour: Colour::M,
    };
    let taken = map.take(&other);
    assert!(rt; !taken && map.colour(&second.seg) == Some(Colour::V));

    let copy = map.copy()?;
    for crease in [first, second, third] {
        let taken = map.take(&crease);
        assert!(rt; taken);
    }
    let put = put_where_free(&mut map, wide)?;
    assert!(rt; put);
    assert!(rt; are(alloc, &map, &[rising(&rt), wide])?);
    assert!(rt; are(alloc, &copy, &[rising(&rt), first, second, third])?);
    Ok(())
}

#[test]
fn creases_take_other_colours(rt: HostRuntime) -> Result<(), Fail> {
    let alloc = rt.alloc();
    let mut map = four(&rt, alloc)?;
    let [first, second, third] = level(&rt);
    let mountain = Crease {
        seg: second.seg,
        colour: Colour::M,
    };
    // A valley is on that segment, and no mountain.
    let recoloured = map.recolour(&mountain, Colour::A);
    assert!(rt; !recoloured && map.has(&second));

    let recoloured = map.recolour(&second, Colour::M);
    assert!(rt; recoloured && map.len() == 4);
    assert!(rt; are(alloc, &map, &[rising(&rt), first, mountain, third])?);
    let within = seg(&rt, "5/16,1/2", "7/16,1/2");
    assert!(rt; overlap(alloc, &map, &within, &[mountain])?);
    Ok(())
}
