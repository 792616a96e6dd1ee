//! Texts of segments, of creases and of deltas, worked by hand.
use crate::{
    Colour, Pattern, delta_bytes, pattern_bytes, put_crease, put_seg, read_crease, read_delta,
    read_pattern, read_seg,
};
use sheet::Sheet;
use std::alloc::Global;
use std::test::Fail;

/// Whether the text is that of a segment, and the segment has this text again.
fn is_seg(text: &[u8]) -> bool {
    match read_seg(text) {
        Some(seg) => put_seg(&seg).as_slice() == text,
        None => false,
    }
}

/// Whether the text is that of a crease, and the crease has this text again.
fn is_crease(text: &[u8]) -> bool {
    match read_crease(text) {
        Some(crease) => put_crease(&crease).as_slice() == text,
        None => false,
    }
}

/// Whether the text is that of a delta, and the delta has this text again.
fn is_delta(alloc: Global, text: &[u8]) -> Result<bool, Fail> {
    match read_delta(alloc, text)? {
        Some(delta) => Ok(delta_bytes(alloc, &delta)?.as_slice() == text),
        None => Ok(false),
    }
}

#[test]
fn texts_of_segments_are_read(rt: HostRuntime) {
    for text in ["0,0 1,1", "0,1/2 1,1/2", "-3,0 1r/2,0", "0,0 1r/2,1r/2"] {
        assert!(rt; is_seg(text.as_bytes()), "{text}");
    }
    for text in [
        "",
        "0,0",
        "1,1 0,0",
        "0,0 0,0",
        "0,0 1,1/2",
        "0,0  1,1",
        "0,0 1,1 ",
        " 0,0 1,1",
        "0,0 1,1\n",
        "0,0 2/2,1",
        "0,0 281474976710657,0",
    ] {
        assert!(rt; read_seg(text.as_bytes()).is_none(), "{text}");
    }
}

#[test]
fn the_longest_text_of_a_segment_is_read(rt: HostRuntime) {
    let text =
        "-281474976710656-281474976710656r/1048575,-281474976710656-281474976710656r/1048575 \
                -281474976710655-281474976710656r/1048575,-281474976710656-281474976710656r/1048575";
    assert!(rt; text.len() == 167 && is_seg(text.as_bytes()));
}

#[test]
fn texts_of_creases_are_read(rt: HostRuntime) {
    for text in ["M 0,0 1,1", "V 0,1/2 1,1/2", "A 0,0 1r/2,1r/2"] {
        assert!(rt; is_crease(text.as_bytes()), "{text}");
    }
    for text in [
        "B 0,0 1,1",
        "m 0,0 1,1",
        "M",
        "M 1,1 0,0",
        "M0,0 1,1",
        "M 0,0 1,1\n",
    ] {
        assert!(rt; read_crease(text.as_bytes()).is_none(), "{text}");
    }
    let crease = read_crease(b"V 0,0 1,1");
    assert!(rt; crease.is_some_and(|crease| crease.colour == Colour::V));
}

/// A valley is drawn over the middle of a mountain.
const OVER: &[u8] = b"- M 0,1/2 1,1/2\n+ M 0,1/2 1/4,1/2\n+ V 1/4,1/2 3/4,1/2\n+ M 3/4,1/2 1,1/2\n";

#[test]
fn texts_of_deltas_are_read(rt: HostRuntime) -> Result<(), Fail> {
    for text in [
        b"".as_slice(),
        OVER,
        b"- M 0,0 1,1\n+ V 0,0 1,1\n",
        b"+ A 0,0 1,1\n",
    ] {
        assert!(rt; is_delta(rt.alloc(), text)?);
    }
    for text in [
        "+ V 0,0 1,1\n- M 0,0 1,1\n",
        "- M 0,0 1,1",
        "- M 0,1 1,0\n- M 0,0 1,1\n",
        "- M 0,0 1,1\n- V 0,0 1,1\n",
        "* M 0,0 1,1\n",
        "- M 0,0 1,1\n\n",
        "-M 0,0 1,1\n",
        "- M 1,1 0,0\n",
        "\n",
    ] {
        assert!(rt;
            read_delta(rt.alloc(), text.as_bytes())?.is_none(),
            "{text}"
        );
    }
    Ok(())
}

#[test]
fn a_delta_leads_over_the_middle(rt: HostRuntime) -> Result<(), Fail> {
    let alloc = rt.alloc();
    let old = read_pattern(alloc, b"q2 1\nM 0,1/2 1,1/2\n")?;
    let Some(delta) = read_delta(alloc, OVER)? else {
        return Err(Fail::from("delta"));
    };
    let new = old.advance(&delta)?;
    let text = match new {
        Some(new) => pattern_bytes(alloc, &new)?,
        None => Vec::new(alloc),
    };
    assert!(rt;
        text.as_slice() == b"q2 1\nM 0,1/2 1/4,1/2\nV 1/4,1/2 3/4,1/2\nM 3/4,1/2 1,1/2\n".as_slice()
    );
    Ok(())
}

/// The text of the pattern with these creases, or an empty one.
fn pattern_with(alloc: Global, texts: &[&str]) -> Result<Vec<u8>, Fail> {
    let mut creases = Vec::new(alloc);
    for text in texts.iter() {
        if let Some(crease) = read_crease(text.as_bytes()) {
            creases.push(crease)?;
        }
    }
    match Pattern::with_creases(alloc, Sheet::square(), creases.as_slice())? {
        Some(pattern) => Ok(pattern_bytes(alloc, &pattern)?),
        None => Ok(Vec::new(alloc)),
    }
}

#[test]
fn creases_come_in_any_order(rt: HostRuntime) -> Result<(), Fail> {
    let text = pattern_with(rt.alloc(), &["V 0,1 1,0", "A 1/2,0 1/2,1", "M 0,0 1,1"])?;
    assert!(rt; text.as_slice() == b"q2 1\nM 0,0 1,1\nV 0,1 1,0\nA 1/2,0 1/2,1\n".as_slice());
    Ok(())
}

#[test]
fn some_creases_are_of_no_pattern(rt: HostRuntime) -> Result<(), Fail> {
    for other in [
        // twice, and over another
        "V 0,1 1,0",
        "M 0,1 1,0",
        "V 0,1 1/2,1/2",
        // out of the sheet, and on a side of it
        "M 0,0 2,2",
        "M 0,0 0,1",
    ] {
        assert!(rt;
            pattern_with(rt.alloc(), &["V 0,1 1,0", other])?.is_empty(),
            "{other}"
        );
    }
    Ok(())
}
