//! Worked values: images in lines, and the texts of points.
use crate::{put_point, read_point, reflect};
use qroot2::{Dir, NumText};

// Each row is a point, a point of the line, the line's direction, and the image, where it is in range.
#[test]
fn points_have_images_in_a_line(rt: HostRuntime) {
    for (point, at, axis, image) in [
        ("1,0", "0,0", 2, "0,1"),
        ("1,0", "0,0", 1, "1r/2,1r/2"),
        ("1,0", "0,0", 3, "-1r/2,1r/2"),
        ("1,2", "0,0", 5, "-3r/2,1r/2"),
        ("1,1", "0,0", 0, "1,-1"),
        ("1/4,1/2", "1/2,0", 4, "3/4,1/2"),
        ("0,0", "1,0", 6, "1,1"),
        ("0,0", "1,0", 14, "1,1"),
        ("1/1048576,0", "0,0", 1, ""),
        ("281474976710656,0", "0,0", 4, "-281474976710656,0"),
        ("281474976710656,0", "-1,0", 4, ""),
    ] {
        let (Ok(given), Ok(at), Some(axis)) = (
            read_point(point.as_bytes()),
            read_point(at.as_bytes()),
            Dir::new(axis),
        ) else {
            assert!(rt; false);
            return;
        };
        assert_eq!(rt;
            reflect(&given, &at, axis),
            read_point(image.as_bytes()).ok(),
            "at {point}"
        );
    }
}

#[test]
fn texts_of_points_are_read_or_refused(rt: HostRuntime) {
    for text in ["0,1/2", "2-1r/2,577-408r/64", "-1+1r,-3"] {
        let Ok(point) = read_point(text.as_bytes()) else {
            assert!(rt; false);
            return;
        };
        assert_eq!(rt; put_point(&point).as_slice(), text.as_bytes());
    }
    for (text, want) in [
        ("1", NumText::Syntax),
        ("1,2,3", NumText::Syntax),
        (",1", NumText::Syntax),
        ("1,", NumText::Syntax),
        ("", NumText::Syntax),
        ("1,2/4", NumText::Syntax),
        ("1,281474976710657", NumText::Range),
        ("2/4,281474976710657", NumText::Syntax),
        ("281474976710657,2/4", NumText::Range),
    ] {
        assert_eq!(rt; read_point(text.as_bytes()), Err(want), "at {text}");
    }
}
